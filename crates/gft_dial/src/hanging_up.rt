ghost use Rattle.std.specs.Prelude.{◌≤◌, length};
ghost use Rattle.gft_dial.specs.Dials.{ReturnsOut, outs_of};

use gft_outside::Link;
use gft_send::Stripe;

/// Gives the data connections of all stripes back to their link, in the order of the stripes and of each
/// one's data connections, and drops the drives. It takes no memory, and closes none: that is the link's.
pub fn hang_up<K: Link, D: Drop>(link: &mut K, stripes: Vec<Stripe<D, K::Out>>)
    requires { length (outs_of stripes.items) ≤ (K.state link.old).handed_out }
    ensures { ReturnsOut K.Out.state (K.state link.old) (K.state link.new) (outs_of stripes.items) }
{
    'each: for stripe in stripes {
        let Stripe { channels, .. } = stripe;
        give_back(link, channels);
    }
}

/// Gives out lanes back to their link, in order.
fn give_back<K: Link>(link: &mut K, outs: Vec<K::Out>)
    requires { length outs.items ≤ (K.state link.old).handed_out }
    ensures { ReturnsOut K.Out.state (K.state link.old) (K.state link.new) outs.items }
{
    'each: for out in outs {
        link.back_out(out);
    }
}
