ghost use Rattle.std.specs.Prelude.{◌≡◌, ◌^◌, ◌<◌, [], ◌∷◌, ◌++◌, length};
ghost use Rattle.std.specs.Int.Signed.{mag};
ghost use Rattle.jobs.specs.Bytes.{two_bytes, four_bytes, unsigned};
ghost use Rattle.jobs.specs.Entries.{Spells};
ghost use Rattle.jobs.specs.Kinds.{body_length};

use super::entry::Entry;
use super::kind::Kind;

// One word for each width, as the definitions have.
pub(crate) fn two(a: u8, b: u8) -> u16
    ensures { two_bytes result ≡ a ∷ b ∷ [] }
{
    u16::from_be_bytes([a, b])
}

fn four(a: u8, b: u8, c: u8, d: u8) -> u32
    ensures { four_bytes result ≡ a ∷ b ∷ c ∷ d ∷ [] }
{
    u32::from_be_bytes([a, b, c, d])
}

fn signed(a: u8, b: u8, c: u8, d: u8) -> i32
    ensures spelled { four_bytes (unsigned result) ≡ a ∷ b ∷ c ∷ d ∷ [] }
    ensures fits { mag result < 2 ^ 31 }
{
    four(a, b, c, d).cast_signed()
}

// The bytes as an array of so many.
fn array<const N: usize>(bytes: &[u8]) -> [u8; N]
    requires { length bytes.now ≡ N }
    ensures { result ≡ bytes.now }
{
    bytes.try_into().unwrap()
}

fn head(body: [u8; 4]) -> Entry
    ensures { Spells Kind.Head body result }
{
    let [a, b, c, d] = body;
    Entry::Head {
        places: two(a, b),
        ways: two(c, d),
    }
}

fn way(body: [u8; 16]) -> Entry
    ensures { Spells Kind.Way body result }
{
    let [a, b, c, d, e, f, g, h, i, j, k, l, m, n, o, p] = body;
    Entry::Way {
        tail: two(a, b),
        head: two(c, d),
        limit: four(e, f, g, h),
        redraws: signed(i, j, k, l),
        misfit: signed(m, n, o, p),
    }
}

fn book(body: [u8; 8]) -> Entry
    ensures { Spells Kind.Book body result }
{
    let [a, b, c, d, e, f, g, h] = body;
    Entry::Book {
        from: two(a, b),
        to: two(c, d),
        amount: four(e, f, g, h),
    }
}

fn settle(body: [u8; 4]) -> Entry
    ensures { Spells Kind.Settle body result }
{
    let [a, b, c, d] = body;
    Entry::Settle {
        budget: four(a, b, c, d),
    }
}

// A length of foot, and how many have it.
fn size(body: [u8; 6]) -> (u16, u32)
    ensures numbers { two_bytes result.0 ++ four_bytes result.1 ≡ body }
{
    let [a, b, c, d, e, f] = body;
    (two(a, b), four(c, d, e, f))
}

// What a record of the kind with this body says.
pub(crate) fn decode_body(kind: Kind, body: &[u8]) -> Entry
    requires { length body.now ≡ body_length kind }
    ensures { Spells kind body.now result }
{
    match kind {
        Kind::Head => head(array(body)),
        Kind::Way => way(array(body)),
        Kind::Book => book(array(body)),
        Kind::Route => Entry::Route,
        Kind::Settle => settle(array(body)),
        Kind::Total => Entry::Total,
        Kind::Prices => Entry::Prices,
        Kind::Group => {
            let (length, count) = size(array(body));
            Entry::Group { length, count }
        }
        Kind::Last => {
            let (length, count) = size(array(body));
            Entry::Last { length, count }
        }
    }
}
