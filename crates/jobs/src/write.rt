ghost use Rattle.std.specs.Prelude.{◌≡◌, ◌+◌, ◌≤◌, [], ◌∷◌, ◌++◌};
ghost use Rattle.arrayvec.specs.ArrayVec.{array_vec_len};
ghost use Rattle.jobs.specs.Bytes.{two_bytes, four_bytes, unsigned};
ghost use Rattle.jobs.specs.Kinds.{kind_byte};
ghost use Rattle.jobs.specs.Entries.{kind_of, body_of, record_of};
ghost use Rattle.jobs.specs.Writing.{Writes};

use super::entry::Entry;
use arrayvec::ArrayVec;
use networks::Refusal;

// The longest record is a way: a kind byte and a body of 16.
type Bytes = ArrayVec<u8, 17>;

// Puts the bytes into the table at the offset, and answers the offset after them.
pub(crate) fn put(table: &mut [u8], offset: usize, bytes: &[u8]) -> Result<usize, Refusal>
    ensures { Writes bytes.now table.old offset result table.new }
{
    let Some(end) = offset.checked_add(bytes.len()) else {
        return Err(Refusal::ShortTable);
    };
    if end > table.len() {
        return Err(Refusal::ShortTable);
    }
    table[offset..end].copy_from_slice(bytes);
    Ok(end)
}

// How much room is left is asked at each width: a type that counted it would be another after each number.
fn add<const N: usize>(bytes: &mut Bytes, number: [u8; N])
    requires { array_vec_len bytes.old + N ≤ 17 }
    ensures items { bytes.new.items ≡ bytes.old.items ++ number.entry }
    ensures len { array_vec_len bytes.new ≡ array_vec_len bytes.old + N }
{
    bytes.try_extend_from_slice(&number).unwrap();
}

fn add_two(bytes: &mut Bytes, number: u16)
    requires { array_vec_len bytes.old + 2 ≤ 17 }
    ensures items { bytes.new.items ≡ bytes.old.items ++ two_bytes number }
    ensures len { array_vec_len bytes.new ≡ array_vec_len bytes.old + 2 }
{
    add(bytes, number.to_be_bytes());
}

fn add_four(bytes: &mut Bytes, number: u32)
    requires { array_vec_len bytes.old + 4 ≤ 17 }
    ensures items { bytes.new.items ≡ bytes.old.items ++ four_bytes number }
    ensures len { array_vec_len bytes.new ≡ array_vec_len bytes.old + 4 }
{
    add(bytes, number.to_be_bytes());
}

// A number below zero stands as the sum of it and 2^32.
fn add_signed(bytes: &mut Bytes, number: i32)
    requires { array_vec_len bytes.old + 4 ≤ 17 }
    ensures items { bytes.new.items ≡ bytes.old.items ++ four_bytes (unsigned number) }
    ensures len { array_vec_len bytes.new ≡ array_vec_len bytes.old + 4 }
{
    add_four(bytes, number.cast_unsigned());
}

impl Entry {
    // Adds the numbers of the entry, the highest byte of each first.
    fn add_body(self, bytes: &mut Bytes)
        requires { array_vec_len bytes.old ≡ 1 }
        ensures { bytes.new.items ≡ bytes.old.items ++ body_of self }
    {
        match self {
            Entry::Head { places, ways } => {
                add_two(bytes, places);
                add_two(bytes, ways);
            }
            Entry::Way {
                tail,
                head,
                limit,
                redraws,
                misfit,
            } => {
                add_two(bytes, tail);
                add_two(bytes, head);
                add_four(bytes, limit);
                add_signed(bytes, redraws);
                add_signed(bytes, misfit);
            }
            Entry::Book { from, to, amount } => {
                add_two(bytes, from);
                add_two(bytes, to);
                add_four(bytes, amount);
            }
            Entry::Settle { budget } => add_four(bytes, budget),
            Entry::Group { length, count } | Entry::Last { length, count } => {
                add_two(bytes, length);
                add_four(bytes, count);
            }
            Entry::Route | Entry::Total | Entry::Prices => {}
        }
    }

    fn bytes(self) -> Bytes
        ensures { result.items ≡ record_of self }
    {
        let mut bytes = Bytes::new();
        bytes.push(u8::from(self.kind()));
        self.add_body(&mut bytes);
        bytes
    }

    // Puts the record into the table at the offset, and answers the offset after it.
    pub fn write(self, table: &mut [u8], offset: usize) -> Result<usize, Refusal>
        ensures { Writes (record_of self) table.old offset result table.new }
    {
        match self {
            // A record without a body is its kind byte: put as one byte, it takes no call to copy it, and what is left has a length of five or more.
            Entry::Route | Entry::Total | Entry::Prices => put(
                table,
                offset,
                &[u8::from(self.kind())],
            ),
            _ => put(table, offset, self.bytes().as_slice()),
        }
    }
}
