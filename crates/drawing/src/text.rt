// What regions and connections share: colours, and in labels numbers with their names and lists of them. `\l` ends a line of a label,
// which is aligned to the left. No line starts with spaces: some programs that show SVG leave them out.
use name_sheet::lookup;
use std::io::Write;
use std::{fmt, io};

// How many items of a list are shown.
const MOST_SHOWN: usize = 4;

const HIGHEST_VERSION: u16 = 65535;

// Colours of lines, dark enough for thin ones.
const COLOURS: [u32; 8] = [
    0x1F4E9C, 0xB23A12, 0x1E7A3C, 0x7B2D8E, 0x0E7C86, 0x7A5A10, 0xC2185B, 0x505050,
];

// The attribute with the colour of a region and of the arrows that leave it.
#[derive(Clone, Copy)]
pub struct Colour(pub u32);

impl fmt::Display for Colour {
    fn fmt<W: fmt::Write>(&self, f: &mut fmt::Formatter<W>) -> fmt::Result {
        let colour = COLOURS[(self.0 % 8) as usize];
        write!(f, "color=\"#{colour:06x}\"")
    }
}

// The kinds of the name sheet, by their numbers there.
#[derive(Clone, Copy)]
pub enum Kind {
    Bundle = 0,
    Package = 1,
    Service = 2,
    Region = 3,
}

// The word for an item of a kind.
impl fmt::Display for Kind {
    fn fmt<W: fmt::Write>(&self, f: &mut fmt::Formatter<W>) -> fmt::Result {
        f.write_str(match self {
            Kind::Bundle => "bundle",
            Kind::Package => "package",
            Kind::Service => "service",
            Kind::Region => "region",
        })
    }
}

// A name as it follows a number in a label: with a space before, unless it is empty. There `&` starts the name of a sign, as in `&lt;`.
#[derive(Clone, Copy)]
struct Name<'a>(&'a [u8]);

impl fmt::Display for Name<'_> {
    fn fmt<W: fmt::Write>(&self, f: &mut fmt::Formatter<W>) -> fmt::Result {
        if !self.0.is_empty() {
            f.write_str(" ")?;
        }
        for byte in self.0 {
            match *byte {
                b'"' => f.write_str("\\\"")?,
                b'\\' => f.write_str("\\\\")?,
                b'&' => f.write_str("&amp;")?,
                other => f.write_char(char::from(other))?,
            }
        }
        Ok(())
    }
}

// The names of a sheet.
#[derive(Clone, Copy)]
pub struct Names<'a> {
    pub sheet: &'a [u8],
}

impl<'a> Names<'a> {
    // The name of an item; empty where the sheet has none.
    fn name(&self, kind: Kind, number: u32) -> Name<'a> {
        Name(lookup(self.sheet, kind as u32, number).unwrap_or_default())
    }

    // A number, and its name where the sheet has one.
    pub fn show<W: Write>(&self, out: &mut W, kind: Kind, number: u32) -> io::Result<()> {
        let name = self.name(kind, number);
        write!(out, "{number}{name}")
    }
}

// What follows the number of an item of a list: the version of a package, unless it is 0; the lowest and the highest version of a package
// entry, unless it passes any; or nothing.
#[derive(Clone, Copy)]
enum Versions {
    Nothing,
    One(u16),
    Between(u16, u16),
}

impl fmt::Display for Versions {
    fn fmt<W: fmt::Write>(&self, f: &mut fmt::Formatter<W>) -> fmt::Result {
        match *self {
            Versions::Nothing | Versions::One(0) | Versions::Between(0, HIGHEST_VERSION) => Ok(()),
            Versions::One(version) => write!(f, ":{version}"),
            Versions::Between(lowest, highest) => write!(f, ":{lowest}-{highest}"),
        }
    }
}

// A list of items of a kind, in the columns of the record, on lines with a margin. Where it has no highest versions, the lowest are those of
// packages; where it has neither, the items have no versions.
#[derive(Clone, Copy)]
pub struct List<'a> {
    pub kind: Kind,
    pub margin: &'a str,
    pub numbers: &'a [u32],
    pub lowest: &'a [u16],
    pub highest: &'a [u16],
}

impl<'a> List<'a> {
    // Items that have no versions.
    pub fn of_numbers(kind: Kind, margin: &'a str, numbers: &'a [u32]) -> List<'a> {
        List {
            kind,
            margin,
            numbers,
            lowest: &[],
            highest: &[],
        }
    }

    fn versions(&self, place: usize) -> Versions {
        match (self.lowest.get(place), self.highest.get(place)) {
            (Some(lowest), Some(highest)) => Versions::Between(*lowest, *highest),
            (Some(version), None) => Versions::One(*version),
            (None, _) => Versions::Nothing,
        }
    }

    // Goes to a line of the list; `first` says whether it is the first one.
    fn start_line<W: Write>(&self, out: &mut W, first: bool) -> io::Result<()> {
        if !first {
            out.write_all(b"\\l")?;
        }
        out.write_all(self.margin.as_bytes())
    }

    // What stands before an item: one with a name has a line of its own, others share a line.
    fn show_gap<W: Write>(
        &self,
        out: &mut W,
        first: bool,
        after_name: bool,
        named: bool,
    ) -> io::Result<()> {
        if !(first || after_name || named) {
            return out.write_all(b", ");
        }
        self.start_line(out, first)?;
        let kind = self.kind;
        if named {
            write!(out, "{kind} ")
        } else {
            write!(out, "{kind}s: ")
        }
    }

    // How many items are left out; `after_name` says whether the last one that is shown has a name.
    fn show_more<W: Write>(&self, out: &mut W, count: usize, after_name: bool) -> io::Result<()> {
        if after_name {
            self.start_line(out, false)?;
        } else {
            out.write_all(b" ")?;
        }
        write!(out, "and {count} more")
    }

    // The list; one with no items is left out.
    pub fn show<W: Write>(&self, out: &mut W, names: Names) -> io::Result<()> {
        if self.numbers.is_empty() {
            return Ok(());
        }
        let mut after_name = false;
        for (place, number) in self.numbers.iter().take(MOST_SHOWN).enumerate() {
            let name = names.name(self.kind, *number);
            let named = !name.0.is_empty();
            self.show_gap(out, place == 0, after_name, named)?;
            let versions = self.versions(place);
            write!(out, "{number}{versions}{name}")?;
            after_name = named;
        }
        let count = self.numbers.len();
        if MOST_SHOWN < count {
            self.show_more(out, count - MOST_SHOWN, after_name)?;
        }
        out.write_all(b"\\l")
    }
}

// The first items of some places.
pub fn first(places: &[u32], count: usize) -> &[u32] {
    &places[..count.min(places.len())]
}
