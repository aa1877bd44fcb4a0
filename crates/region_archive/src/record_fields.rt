// A record of an archive as a value: two numbers and up to three parts.
ghost use Rattle.std.specs.Prelude.{◌≡◌, List, ℕ, ◌+◌, ◌*◌, ◌≤◌, ◌<◌, length, slice_index};
ghost use Rattle.region_graph.specs.Size.{most_listed};
ghost use Rattle.region_graph.specs.Flat.{Fields, fields_of_bundle, fields_of_connection};
ghost use Rattle.region_graph.specs.Record.{bundle_in, connection_in};
ghost use Rattle.region_archive.specs.RecordFields.{field_key, field_count, «first_width», most_records, most_in, row_width, layout_of};
ghost use Rattle.region_archive.specs.RecordFields.{as_codes, BundleFits, ConnectionFits, ValuesAre};

use region_graph::flat::{BUNDLE_WIDTH, CONNECTION_WIDTH};
use region_graph::size::{MOST_BUNDLES, MOST_CONNECTIONS, MOST_LISTED, MOST_PROVIDED};
use region_graph::{StoredBundle, StoredConnection};

// The sections of an archive of a version whose records have fields. What differs between them is a table, or two lines where it is asked.
#[derive(Clone, Copy)]
pub enum Section {
    Bundles(usize),
    Connections(usize),
}

// The codes of a list, or the sign for everything as the count. There is no heap: it has places for the longest list.
#[derive(Clone, Copy)]
pub struct Codes {
    pub count: usize,
    pub items: [u64; MOST_LISTED],
}

// Location, region, packages and services of a bundle; source, target and the three parts of a connection's filter.
#[derive(Clone, Copy)]
pub struct FieldValues {
    pub first: u32,
    pub second: u32,
    pub parts: [Codes; 3],
}

// What stands for a part that a record has not.
const NO_CODES: Codes = Codes {
    count: 0,
    items: [0; MOST_LISTED],
};

// How many versions there are.
const VERSIONS: u64 = 65536;

fn package_code(number: u32, version: u16) -> u64
    ensures { result ≡ number * 65536 + version }
{
    u64::from(number) * VERSIONS + u64::from(version)
}

fn entry_code(number: u32, lowest: u16, highest: u16) -> u64
    ensures { result ≡ (number * 65536 + lowest) * 65536 + highest }
{
    package_code(number, lowest) * VERSIONS + u64::from(highest)
}

// The codes that a function gives for the first places, and 0 in the others.
fn in_places<F: Fn(usize) -> u64>(count: usize, used: usize, code: F) -> Codes
    requires few { used ≤ most_listed }
    requires callable { (i : ℕ) → i < used → F.pre code i }
    ensures { (xs : List ℕ) × (length xs ≡ used) × ((i : ℕ) → i < used → F.post code i (slice_index xs i)) × (result ≡ as_codes count xs) }
{
    let mut items = [0; MOST_LISTED];
    for i in 0..used {
        items[i] = code(i);
    }
    Codes { count, items }
}

// What the records of a section are: how many fields each has, the bytes of the first one, the most numbers in a list, the most records,
// and the numbers that a record takes in a flat list.
#[derive(Clone, Copy)]
struct Layout {
    fields: usize,
    first_width: usize,
    most_in: usize,
    most_records: usize,
    width: usize,
}

impl Section {
    fn layout(self) -> Layout
        ensures { result ≡ layout_of self }
    {
        match self {
            Section::Bundles(_) => Layout {
                fields: 4,
                first_width: 4,
                most_in: MOST_PROVIDED,
                most_records: MOST_BUNDLES,
                width: BUNDLE_WIDTH,
            },
            Section::Connections(_) => Layout {
                fields: 5,
                first_width: 1,
                most_in: MOST_LISTED,
                most_records: MOST_CONNECTIONS,
                width: CONNECTION_WIDTH,
            },
        }
    }
}

// How many records a section may have.
pub fn most_records(section: Section) -> usize
    ensures { result ≡ most_records section }
{
    section.layout().most_records
}

// How many fields a record of a section has.
pub fn field_count(section: Section) -> usize
    ensures { result ≡ field_count section }
{
    section.layout().fields
}

// How many bytes the first field of a record takes.
pub fn first_width(section: Section) -> usize
    ensures { result ≡ first_width section }
{
    section.layout().first_width
}

// How many numbers a list of a record may have.
pub fn most_in(section: Section) -> usize
    ensures { result ≡ most_in section }
{
    section.layout().most_in
}

// How many numbers a record takes in a flat list.
pub fn width(section: Section) -> usize
    ensures { result ≡ row_width section }
{
    section.layout().width
}

// The number by which the records of a section ascend: the location, or source and target.
pub fn field_key(section: Section, first: u32, second: u32) -> u64
    ensures { result ≡ field_key section first second }
{
    match section {
        Section::Bundles(_) => u64::from(first),
        Section::Connections(_) => u64::from(first) * 256 + u64::from(second),
    }
}

// A bundle or a connection as a record of an archive.
pub trait Record {
    ghost use Rattle.region_archive.specs.declared.record_fields.Section.{Section};

    ghost section: { ℕ → Section };

    ghost fits: { Self → Type 0 };

    ghost fields: { Self → Fields };

    // The section of such records in an archive of a version.
    fn section(version: usize) -> Section
        ensures { result ≡ section version };

    fn values(&self) -> FieldValues
        requires { fits self.now }
        ensures { (v : ℕ) → ValuesAre (section v) result (fields self.now) };
}

impl Record for StoredBundle {
    ghost use Rattle.region_archive.specs.declared.record_fields.Section.{Section};

    ghost section = { Section.Bundles };

    ghost fits = { BundleFits };

    ghost fields = { λ b. fields_of_bundle (bundle_in b) };

    fn section(version: usize) -> Section {
        Section::Bundles(version)
    }

    fn values(&self) -> FieldValues {
        let packages = &self.packages;
        let services = &self.services;
        let provided = in_places(packages.count, MOST_PROVIDED, |i| {
            package_code(packages.numbers[i], packages.versions[i])
        });
        let published = in_places(
            services.count,
            MOST_PROVIDED,
            |i| u64::from(services.items[i]),
        );
        FieldValues {
            first: self.location,
            second: self.region,
            parts: [provided, published, NO_CODES],
        }
    }
}

impl Record for StoredConnection {
    ghost use Rattle.region_archive.specs.declared.record_fields.Section.{Section};

    ghost section = { Section.Connections };

    ghost fits = { ConnectionFits };

    ghost fields = { λ c. fields_of_connection (connection_in c) };

    fn section(version: usize) -> Section {
        Section::Connections(version)
    }

    // Inlined: who asks for the length of an image then works no code out.
    #[inline(always)]
    fn values(&self) -> FieldValues {
        let entries = &self.packages;
        let named = in_places(self.bundles.count, MOST_LISTED, |i| {
            u64::from(self.bundles.items[i])
        });
        let passed = in_places(entries.count, MOST_LISTED, |i| {
            entry_code(entries.numbers[i], entries.lowest[i], entries.highest[i])
        });
        let offered = in_places(self.services.count, MOST_LISTED, |i| {
            u64::from(self.services.items[i])
        });
        FieldValues {
            first: self.source,
            second: self.target,
            parts: [named, passed, offered],
        }
    }
}
