//! Laws of streams that are sent and come on lanes, for proofs. The functions do nothing.

ghost use Rattle.gft_delivery.specs.Laws.{OrdersAreShortLaw, StreamsAreSendingLaw, StreamsAreWholeLaw};

use gft_eblock::one_block;

/// Lanes that together bring the streams of a whole file, cut in any way and dealt out over any number of
/// lanes, are honest for the file and whole; what was done is the REST list.
pub fn sent_streams_are_honest()
    ensures sending { StreamsAreSendingLaw }
    ensures whole { StreamsAreWholeLaw }
    ensures short { OrdersAreShortLaw }
{
    one_block();
}
