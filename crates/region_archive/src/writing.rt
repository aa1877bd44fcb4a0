// The writer: the length of the image first, then its bytes.
ghost use Rattle.std.specs.Prelude.{◌≡◌, ◌+◌, ◌≤◌, ◌<◌, length, All};
ghost use Rattle.region_graph.specs.Size.{regions, most_bundles};
ghost use Rattle.region_graph.specs.Sets.{members};
ghost use Rattle.region_graph.specs.Record.{Valid, meaning};
ghost use Rattle.text_lines.specs.Written.{WrittenAt};
ghost use Rattle.region_archive.specs.Bounds.{field_bound, fields_bound, section_bound, body_bound};
ghost use Rattle.big_endian.specs.Bytes.{big, counted, sized};
ghost use Rattle.region_archive.specs.Image.{«part_bytes», body_in, image_in, image};
ghost use Rattle.region_archive.specs.Forms.{element_bytes, FormFits};
ghost use Rattle.region_archive.specs.RecordFields.{codes_of, «part_of», CodesFit, CodePartFits, ValuesFit, records_bytes};
ghost use Rattle.region_archive.specs.RecordFields.{«fields_in», field_bytes, fields_bytes, field_count};
ghost use Rattle.region_archive.specs.Promise.{archived, written_answer, placed_outcome, write_outcome, older_outcome};

use crate::FRONT;
use crate::forms::{Form, form_of};
use crate::numbers::{put_element, put_number};
use crate::plain::unversioned;
use crate::record_fields::{Codes, FieldValues, Record, Section, field_count, first_width};
use crate::version::{LATEST, older_version};
use region_graph::Graph;
use region_graph::refusals::Refusal;
use region_graph::region_set::has;
use region_graph::size::{EVERYTHING, REGIONS};

// How many bytes a part takes.
fn part_size(form: Form, part: &Codes) -> usize
    requires { FormFits form × CodePartFits part.now }
    ensures { (result ≡ length (part_bytes (element_bytes form) (part_of part.now))) × (result ≤ field_bound) }
{
    if part.count == EVERYTHING {
        1
    } else {
        1 + part.count * form.width
    }
}

// How many bytes a field of a record takes.
fn field_size(section: Section, field: usize, values: &FieldValues) -> usize
    requires values_fit { ValuesFit values.now }
    requires field_within { field + 1 ≤ field_count section }
    ensures { (result ≡ length (field_bytes section field (fields_in values.now))) × (result ≤ field_bound) }
{
    match field {
        0 => first_width(section),
        1 => 1,
        _ => part_size(form_of(section, field), &values.parts[field - 2]),
    }
}

// How many bytes the fields of a record take: a loop, whose invariant bounds the sum.
fn fields_size(section: Section, values: &FieldValues) -> usize
    requires { ValuesFit values.now }
    ensures { (result ≡ length (fields_bytes section (fields_in values.now))) × (result ≤ fields_bound) }
{
    let mut size = 0;
    for field in 0..field_count(section) {
        size += field_size(section, field, values);
    }
    size
}

// How many bytes records take with their count.
fn records_size<R: Record>(records: &[R], version: usize) -> usize
    requires each_fits { All R.fits records.now }
    requires few { length records.now ≤ most_bundles }
    ensures { (result ≡ length (records_bytes (R.section version) R.fields records.now)) × (result ≤ section_bound) }
{
    let section = R::section(version);
    let mut size = 1;
    for record in records {
        size += 2 + fields_size(section, &record.values());
    }
    size
}

// How many regions are in a set.
fn region_count(set: u64) -> usize
    ensures { (result ≡ length (members set)) × (result ≤ regions) }
{
    (0..REGIONS as u32)
        .filter(|region| has(set, *region))
        .count()
}

// A buffer that is written from a place on.
#[derive(Drop)]
struct Writer<'a> {
    buffer: &'a mut [u8],
    at: usize,
}

impl Writer<'_> {
    fn number(&mut self, width: usize, number: usize)
        requires { self.old.at + width ≤ length self.old.buffer.now }
        ensures written { WrittenAt self.old.buffer.now self.new.buffer.now self.old.at (big width number) self.new.at }
        ensures same_buffer { self.new.buffer.ghost_name ≡ self.old.buffer.ghost_name }
    {
        self.at = put_number(self.buffer, self.at, width, number);
    }

    fn element(&mut self, width: usize, number: usize)
        requires { self.old.at + width ≤ length self.old.buffer.now }
        ensures written { WrittenAt self.old.buffer.now self.new.buffer.now self.old.at (big width number) self.new.at }
        ensures same_buffer { self.new.buffer.ghost_name ≡ self.old.buffer.ghost_name }
    {
        self.at = put_element(self.buffer, self.at, width, number);
    }

    // A list: its count, then its elements.
    fn list(&mut self, form: Form, list: &Codes)
        requires form_fits { FormFits form × CodesFit list.now }
        requires list_in_bounds { self.old.at + length (counted (element_bytes form) (codes_of list.now)) ≤ length self.old.buffer.now }
        ensures written { WrittenAt self.old.buffer.now self.new.buffer.now self.old.at (counted (element_bytes form) (codes_of list.now)) self.new.at }
        ensures same_buffer { self.new.buffer.ghost_name ≡ self.old.buffer.ghost_name }
    {
        self.number(1, list.count);
        for code in &list.items[..list.count] {
            self.element(form.width, (*code >> form.skipped) as usize);
        }
    }

    // A part: a list, or the sign for everything.
    fn part(&mut self, form: Form, part: &Codes)
        requires form_fits { FormFits form × CodePartFits part.now }
        requires part_in_bounds { self.old.at + length (part_bytes (element_bytes form) (part_of part.now)) ≤ length self.old.buffer.now }
        ensures written { WrittenAt self.old.buffer.now self.new.buffer.now self.old.at (part_bytes (element_bytes form) (part_of part.now)) self.new.at }
        ensures same_buffer { self.new.buffer.ghost_name ≡ self.old.buffer.ghost_name }
    {
        if part.count == EVERYTHING {
            self.number(1, EVERYTHING);
        } else {
            self.list(form, part);
        }
    }

    // A field of a record.
    fn field(&mut self, section: Section, field: usize, values: &FieldValues)
        requires values_fit { ValuesFit values.now }
        requires field_within { field + 1 ≤ field_count section }
        requires field_in_bounds { self.old.at + length (field_bytes section field (fields_in values.now)) ≤ length self.old.buffer.now }
        ensures written { WrittenAt self.old.buffer.now self.new.buffer.now self.old.at (field_bytes section field (fields_in values.now)) self.new.at }
        ensures same_buffer { self.new.buffer.ghost_name ≡ self.old.buffer.ghost_name }
    {
        match field {
            0 => self.number(first_width(section), values.first as usize),
            1 => self.number(1, values.second as usize),
            _ => self.part(form_of(section, field), &values.parts[field - 2]),
        }
    }

    // A record: the length of its fields, then the fields.
    fn record(&mut self, section: Section, values: &FieldValues)
        requires values_fit { ValuesFit values.now }
        requires values_in_bounds { self.old.at + length (sized 2 (fields_bytes section) (fields_in values.now)) ≤ length self.old.buffer.now }
        ensures written { WrittenAt self.old.buffer.now self.new.buffer.now self.old.at (sized 2 (fields_bytes section) (fields_in values.now)) self.new.at }
        ensures same_buffer { self.new.buffer.ghost_name ≡ self.old.buffer.ghost_name }
    {
        self.number(2, fields_size(section, values));
        for field in 0..field_count(section) {
            self.field(section, field, values);
        }
    }

    // A section: the count of its records, then the records.
    fn records<R: Record>(&mut self, records: &[R], version: usize)
        requires each_fits { All R.fits records.now }
        requires few { length records.now ≤ most_bundles }
        requires records_in_bounds { self.old.at + length (records_bytes (R.section version) R.fields records.now) ≤ length self.old.buffer.now }
        ensures written { WrittenAt self.old.buffer.now self.new.buffer.now self.old.at (records_bytes (R.section version) R.fields records.now) self.new.at }
        ensures same_buffer { self.new.buffer.ghost_name ≡ self.old.buffer.ghost_name }
    {
        let section = R::section(version);
        self.number(1, records.len());
        for record in records {
            self.record(section, &record.values());
        }
    }

    // The regions of a set: their count, then their numbers.
    fn regions(&mut self, set: u64)
        requires { self.old.at + length (counted (big 1) (members set)) ≤ length self.old.buffer.now }
        ensures written { WrittenAt self.old.buffer.now self.new.buffer.now self.old.at (counted (big 1) (members set)) self.new.at }
        ensures same_buffer { self.new.buffer.ghost_name ≡ self.old.buffer.ghost_name }
    {
        self.number(1, region_count(set));
        for region in 0..REGIONS as u32 {
            if has(set, region) {
                self.number(1, region as usize);
            }
        }
    }
}

// How many bytes follow the length in the image of a graph in a version.
fn body_size(graph: &Graph, version: usize) -> usize
    requires { Valid graph.now }
    ensures { (result ≡ length (body_in version (meaning graph.now))) × (result ≤ body_bound) }
{
    1 + region_count(graph.region_set())
        + records_size(graph.bundles(), version)
        + records_size(graph.connections(), version)
}

// How many bytes the image of a graph takes.
pub fn image_length(graph: &Graph) -> usize
    requires { Valid graph.now }
    ensures { result ≡ length (image (meaning graph.now)) }
{
    body_size(graph, LATEST) + FRONT
}

// The image of a graph in a version at the buffer's start.
fn write_in(graph: &Graph, version: usize, buffer: &mut [u8]) -> Result<usize, Refusal>
    requires { Valid graph.now × (version < 256) }
    ensures { archived (written_answer result) buffer.new ≡ placed_outcome (image_in version (meaning graph.now)) buffer.old }
{
    let size = body_size(graph, version);
    if buffer.len() < size + FRONT {
        return Err(Refusal::NoPlace);
    }
    let mut writer = Writer { buffer, at: 0 };
    writer.number(1, version);
    writer.number(4, size);
    writer.regions(graph.region_set());
    writer.records(graph.bundles(), version);
    writer.records(graph.connections(), version);
    Ok(writer.at)
}

// The image of a graph at the buffer's start.
pub fn write(graph: &Graph, buffer: &mut [u8]) -> Result<usize, Refusal>
    requires { Valid graph.now }
    ensures { archived (written_answer result) buffer.new ≡ write_outcome (meaning graph.now) buffer.old }
{
    write_in(graph, LATEST, buffer)
}

// The image that was written before the latest version, of a graph that has no versions.
pub fn write_older(graph: &Graph, buffer: &mut [u8]) -> Result<usize, Refusal>
    requires { Valid graph.now }
    ensures { archived (written_answer result) buffer.new ≡ older_outcome (meaning graph.now) buffer.old }
{
    if !unversioned(graph) {
        return Err(Refusal::HasVersions);
    }
    let version = older_version(graph.region_set());
    write_in(graph, version, buffer)
}
