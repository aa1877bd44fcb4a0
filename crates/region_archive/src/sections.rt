// The sections of an archive at a place. A reading function puts the numbers of the value that stands there into lent places, and hands
// back the place after it; or none, where no such value stands there.
ghost use Rattle.std.specs.Prelude.{◌≡◌, ◌≤◌, ◌<◌, ◌+◌, ◌*◌, length};
ghost use Rattle.region_graph.specs.Size.{regions, most_listed};
ghost use Rattle.region_graph.specs.Sets.{members};
ghost use Rattle.region_archive.specs.Forms.{FormFits, list_form, «form_of»};
ghost use Rattle.region_archive.specs.RecordFields.{field_count, «first_good», second_good, part_open, most_in, most_records, row_width};
ghost use Rattle.region_archive.specs.Sections.{ListRead, PartRead, FieldRead, LengthRead, RecordRead, RegionsRead, SectionRead};

use crate::forms::{Form, ListOf, code_at, code_key, field_list, list_form};
use crate::numbers::{count_at, low_word};
use crate::record_fields::{
    Section, field_count, field_key, first_width, most_in, most_records, width,
};
use big_endian::{At, number_at};
use region_graph::region_set::{has, is_region, singleton};
use region_graph::size::REGIONS;

// The count of a part that is everything.
const EVERYTHING: u8 = 255;

// The list at a place: a count, then its elements in ascending order.
fn list_at(bytes: &[u8], at: usize, most: usize, form: Form, row: &mut [u64]) -> Option<usize>
    requires at_in_bounds { (at ≤ length bytes.now) × ((most ≤ most_listed) × (most + 1 ≤ length row.old)) }
    requires form_fits { FormFits form }
    ensures { ListRead form most bytes.now at row.old row.new result }
{
    let count = count_at(bytes, at, most)?;
    row[0] = count.value as u64;
    let mut to = count.next;
    let mut least: u64 = 0;
    for n in 0..count.value {
        let code = code_at(bytes, to, form, least)?;
        row[n + 1] = code.value;
        to = code.next;
        least = code_key(form, code.value) + 1;
    }
    Some(to)
}

// The list at a place, by what it has. Each sort of list has a call of its own, in which the numbers of its form are constants.
fn listed_at(bytes: &[u8], at: usize, most: usize, list: ListOf, row: &mut [u64]) -> Option<usize>
    requires { (at ≤ length bytes.now) × ((most ≤ most_listed) × (most + 1 ≤ length row.old)) }
    ensures { ListRead (list_form list) most bytes.now at row.old row.new result }
{
    match list {
        ListOf::Numbers => list_at(bytes, at, most, list_form(ListOf::Numbers), row),
        ListOf::Packages => list_at(bytes, at, most, list_form(ListOf::Packages), row),
        ListOf::BarePackages => list_at(bytes, at, most, list_form(ListOf::BarePackages), row),
        ListOf::Entries => list_at(bytes, at, most, list_form(ListOf::Entries), row),
        ListOf::BareEntries => list_at(bytes, at, most, list_form(ListOf::BareEntries), row),
    }
}

// Whether the sign for everything may stand in a field.
fn part_open(section: Section, field: usize) -> bool
    ensures { result ≡ part_open section field }
{
    match section {
        Section::Bundles(_) => false,
        Section::Connections(_) => 2 < field,
    }
}

// The part in a field of a record, at a place: a list, or the sign for everything where it may stand.
fn part_at(
    bytes: &[u8],
    at: usize,
    section: Section,
    field: usize,
    row: &mut [u64],
) -> Option<usize>
    requires { (at ≤ length bytes.now) × (most_in section + 1 ≤ length row.old) }
    ensures { PartRead (form_of section field) (most_in section) (part_open section field) bytes.now at row.old row.new result }
{
    if at < bytes.len() && bytes[at] == EVERYTHING {
        if !part_open(section, field) {
            return None;
        }
        row[0] = u64::from(EVERYTHING);
        return Some(at + 1);
    }
    listed_at(bytes, at, most_in(section), field_list(section, field), row)
}

// What a record is asked: the section that it stands in, the regions of its graph, and how high its order must be.
#[derive(Clone, Copy)]
struct RecordRules {
    section: Section,
    regions: u64,
    least: u64,
}

impl RecordRules {
    // Whether a record may start with a number.
    fn first_good(self, first: u32) -> bool
        ensures { result ≡ first_good self.section (members self.regions) self.least first }
    {
        let high = self.least <= field_key(self.section, first, 255);
        match self.section {
            Section::Bundles(_) => high,
            Section::Connections(_) => high && has(self.regions, first),
        }
    }

    // Whether a record may have these two numbers.
    fn second_good(self, first: u32, second: u32) -> bool
        ensures { result ≡ second_good self.section (members self.regions) self.least first second }
    {
        let high = self.least <= field_key(self.section, first, second);
        match self.section {
            Section::Bundles(_) => high && has(self.regions, second),
            Section::Connections(_) => high && first != second && has(self.regions, second),
        }
    }

    // The first number of a record, at a place.
    fn first_at(self, bytes: &[u8], at: usize, row: &mut [u64]) -> Option<usize>
        requires { (at ≤ length bytes.now) × (2 ≤ length row.old) }
        ensures { FieldRead self.section (members self.regions) self.least 0 bytes.now at row.old row.new result }
    {
        let first = number_at(bytes, at, first_width(self.section))?;
        row[0] = u64::from(first.value);
        if !self.first_good(first.value) {
            return None;
        }
        Some(first.next)
    }

    // The second number of a record, at a place.
    fn second_at(self, bytes: &[u8], at: usize, row: &mut [u64]) -> Option<usize>
        requires { (at ≤ length bytes.now) × (2 ≤ length row.old) }
        ensures { FieldRead self.section (members self.regions) self.least 1 bytes.now at row.old row.new result }
    {
        let second = number_at(bytes, at, 1)?;
        row[1] = u64::from(second.value);
        if !self.second_good(low_word(row[0]), second.value) {
            return None;
        }
        Some(second.next)
    }

    // A field of a record, at a place.
    fn field_at(self, bytes: &[u8], at: usize, field: usize, row: &mut [u64]) -> Option<usize>
        requires { (at ≤ length bytes.now) × ((field < field_count self.section) × (length row.old ≡ row_width self.section)) }
        ensures { FieldRead self.section (members self.regions) self.least field bytes.now at row.old row.new result }
    {
        match field {
            0 => self.first_at(bytes, at, row),
            1 => self.second_at(bytes, at, row),
            _ => {
                let place = 2 + (field - 2) * (most_in(self.section) + 1);
                part_at(bytes, at, self.section, field, &mut row[place..])
            }
        }
    }

    // The record at a place: the length of its fields, and the fields.
    fn record_at(self, bytes: &[u8], at: usize, row: &mut [u64]) -> Option<usize>
        requires { (at ≤ length bytes.now) × (length row.old ≡ row_width self.section) }
        ensures { RecordRead self.section (members self.regions) self.least bytes.now at row.old row.new result }
    {
        let length = length_at(bytes, at)?;
        let stop = length.next + length.value;
        let mut to = length.next;
        for field in 0..field_count(self.section) {
            to = self.field_at(&bytes[..stop], to, field, row)?;
        }
        if to != stop {
            return None;
        }
        Some(to)
    }
}

// The length of a record at a place, and the place after it, behind which are as many bytes.
fn length_at(bytes: &[u8], at: usize) -> Option<At<usize>>
    requires { at ≤ length bytes.now }
    ensures { LengthRead bytes.now at result }
{
    let size = number_at(bytes, at, 2)?;
    let value = size.value as usize;
    if bytes.len() - size.next < value {
        return None;
    }
    Some(At {
        value,
        next: size.next,
    })
}

// The regions of an archive, as a set, and how many they are: so many lent places have their numbers.
#[derive(Clone, Copy)]
pub struct Regions {
    pub set: u64,
    pub count: usize,
}

// The regions at a place: a count, then their numbers in ascending order.
pub fn regions_at(bytes: &[u8], from: usize, list: &mut [u32]) -> Option<At<Regions>>
    requires { (from ≤ length bytes.now) × (regions ≤ length list.old) }
    ensures { RegionsRead bytes.now from list.new result }
{
    let count = count_at(bytes, from, REGIONS)?;
    let mut set: u64 = 0;
    let mut at = count.next;
    let mut least: u32 = 0;
    for n in 0..count.value {
        let region = number_at(bytes, at, 1)?;
        if region.value < least || !is_region(region.value) {
            return None;
        }
        set |= singleton(region.value);
        list[n] = region.value;
        at = region.next;
        least = region.value + 1;
    }
    Some(At {
        value: Regions {
            set,
            count: count.value,
        },
        next: at,
    })
}

// A section at a place: a count, then records in ascending order, each in a row of its own. The value is how many numbers the rows have.
pub fn section_at(
    bytes: &[u8],
    from: usize,
    section: Section,
    regions: u64,
    rows: &mut [u64],
) -> Option<At<usize>>
    requires { (from ≤ length bytes.now) × (most_records section * row_width section ≤ length rows.old) }
    ensures { SectionRead section (members regions) bytes.now from rows.new result }
{
    let count = count_at(bytes, from, most_records(section))?;
    let wide = width(section);
    let mut at = count.next;
    let mut least: u64 = 0;
    for n in 0..count.value {
        let row = &mut rows[n * wide..(n + 1) * wide];
        let rules = RecordRules {
            section,
            regions,
            least,
        };
        at = rules.record_at(bytes, at, row)?;
        least = field_key(section, low_word(row[0]), low_word(row[1])) + 1;
    }
    Some(At {
        value: count.value * wide,
        next: at,
    })
}
