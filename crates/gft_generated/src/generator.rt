ghost use Rattle.std.specs.Prelude.{◌≡◌, ◌+◌, ◌*◌, ◌<◌, ◌%◌, ◌^◌, ◌↔◌, length, IsTrue};
ghost use Rattle.gft_generated.specs.Generator.{generated, generated_byte, mixed};

/// 2^32: the generator counts and multiplies below it.
const WORD: u64 = 4_294_967_296;

/// The odd number nearest to 2^32 divided by the golden ratio.
const MULTIPLIER: u64 = 2_654_435_761;

/// 2^24: the byte is what stands above it in a word.
const TOP_BYTE: u64 = 16_777_216;

/// The byte that multiplying makes of a count.
fn mix(count: u64) -> u8
    ensures { result ≡ mixed count }
{
    (count % WORD * MULTIPLIER % WORD / TOP_BYTE) as u8
}

/// A count that makes the same bytes as `seed + at` does, itself and each behind it.
fn count_from(seed: u64, at: u64) -> u64
    ensures same { result % WORD ≡ (seed + at) % WORD }
    ensures small { result < 2 * WORD }
{
    seed % WORD + at % WORD
}

/// The byte at place `x` of the file that this seed generates: multiplicative hashing of `seed + x`, whose
/// top byte of 32 bits is taken.
pub fn byte_at(seed: u64, x: u64) -> u8
    ensures { result ≡ generated_byte seed x }
{
    mix(count_from(seed, x))
}

/// Fills the buffer with the bytes of the generated file from place `at` on. A place counts on past 2^64.
pub fn generate(seed: u64, at: u64, buf: &mut [u8])
    ensures { buf.new ≡ generated seed at (length buf.old) }
{
    let mut count = count_from(seed, at);
    for byte in buf.iter_mut() {
        *byte = mix(count);
        count += 1;
    }
}

/// Whether these are the bytes of the generated file from place `at` on.
pub fn is_generated(seed: u64, at: u64, bytes: &[u8]) -> bool
    ensures { IsTrue result ↔ (bytes.now ≡ generated seed at (length bytes.now)) }
{
    let mut count = count_from(seed, at);
    let mut is_same = true;
    for &byte in bytes {
        is_same &= byte == mix(count);
        count += 1;
    }
    is_same
}
