ghost use Rattle.std.specs.Prelude.{◌≡◌, ◌+◌, ◌*◌, ◌<◌, take, drop};
ghost use Rattle.jobs.specs.Entries.{Spells};
ghost use Rattle.jobs.specs.Sections.{section_net, SectionOf};

use super::check::check_file;
use super::decode::{decode_body, two};
use super::entry::Entry;
use super::file_section::FileSection;
use super::form::Form;
use super::kind::Kind;
use costs::{Cost, Pair, Whole};
use networks::{Ends, Network};

impl<'a> FileSection<'a> {
    pub fn new(bytes: &'a [u8]) -> Self
        ensures { SectionOf bytes.now result }
    {
        let Ok(_) = check_file(Form::Job, bytes) else {
            return FileSection {
                bytes,
                places: 0,
                ways: 0,
            };
        };
        let [_, a, b, c, d, ..] = bytes else {
            unreachable()
        };
        FileSection {
            bytes,
            places: usize::from(two(*a, *b)),
            ways: usize::from(two(*c, *d)),
        }
    }
}

// What the record of way `k` says.
fn way_entry(section: &FileSection, k: usize) -> Entry
    requires { k < section.now.ways }
    ensures { Spells Kind.Way (take 16 (drop (17 * k + 6) section.now.bytes.now)) result }
{
    let at = 17 * k + 6;
    decode_body(Kind::Way, &section.bytes[at..at + 16])
}

impl<'a> Network for FileSection<'a> {
    type Cost = Pair<Whole, Whole>;

    ghost means = { section_net };

    fn places(&self) -> usize {
        self.places
    }

    fn ways(&self) -> usize {
        self.ways
    }

    // This question and the next read one record, each its own half of it.
    fn way(&self, k: usize) -> Option<Ends> {
        if k >= self.ways {
            return None;
        }
        let Entry::Way {
            tail,
            head,
            limit,
            ..
        } = way_entry(self, k)
        else {
            unreachable()
        };
        Some(Ends {
            tail: usize::from(tail),
            head: usize::from(head),
            limit,
        })
    }

    fn cost(&self, k: usize) -> Option<Pair<Whole, Whole>> {
        if k >= self.ways {
            return None;
        }
        let Entry::Way {
            redraws,
            misfit,
            ..
        } = way_entry(self, k)
        else {
            unreachable()
        };
        Some(Pair {
            first: Whole::read(i64::from(redraws)),
            second: Whole::read(i64::from(misfit)),
        })
    }
}
