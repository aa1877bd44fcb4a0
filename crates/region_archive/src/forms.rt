// How the elements of a list stand in a file, and the element at a place. An element is one number, its code.
ghost use Rattle.std.specs.Prelude.{◌≡◌, ◌≤◌, length};
ghost use Rattle.big_endian.specs.Parsing.{Answer};
ghost use Rattle.region_archive.specs.Forms.{element_bytes, code_key, code_next, NextCode, FormFits, list_form, «form_of»};

use crate::record_fields::Section;
use big_endian::{At, long_at};

// A code has the bytes of what is left of it without the lowest bits that are skipped, so many as the width says; the bits that are skipped
// are the rest. The codes of a list ascend by what is left without the lower bits.
#[derive(Clone, Copy)]
pub struct Form {
    pub width: usize,
    pub skipped: u32,
    pub rest: u64,
    pub lower: u32,
}

// The lower bits of a code have a high half and a low one, of 16 bits.
const HALF: u64 = 65536;

// The version from which on packages and entries have their versions.
const VERSIONED: usize = 3;

// What stands for the versions before: version 0 of a package, and every version from 0 on for an entry.
const NO_VERSION: u64 = 0;

const EVERY_VERSION: u64 = 65535;

// The field of a bundle with its packages, and that of a connection with its package part.
const PACKAGES: usize = 2;

const PACKAGE_PART: usize = 3;

// What a list has: numbers, packages or entries; packages and entries without their versions in files before version 3.
#[derive(Clone, Copy)]
pub enum ListOf {
    Numbers,
    Packages,
    BarePackages,
    Entries,
    BareEntries,
}

// The form of a list: a table. Where what it has is a constant, so is the form.
pub fn list_form(list: ListOf) -> Form
    ensures { (result ≡ list_form list) × FormFits result }
{
    match list {
        ListOf::Numbers => Form {
            width: 4,
            skipped: 0,
            rest: 0,
            lower: 0,
        },
        ListOf::Packages => Form {
            width: 6,
            skipped: 0,
            rest: 0,
            lower: 0,
        },
        ListOf::BarePackages => Form {
            width: 4,
            skipped: 16,
            rest: NO_VERSION,
            lower: 0,
        },
        ListOf::Entries => Form {
            width: 8,
            skipped: 0,
            rest: 0,
            lower: 32,
        },
        ListOf::BareEntries => Form {
            width: 4,
            skipped: 32,
            rest: EVERY_VERSION,
            lower: 32,
        },
    }
}

// What the list in a field of a record has.
#[tactic(auto, unfolding(crate::specs::Forms::form_of))]
pub fn field_list(section: Section, field: usize) -> ListOf
    ensures { list_form result ≡ form_of section field }
{
    match section {
        Section::Bundles(version) if field == PACKAGES => {
            if version < VERSIONED {
                ListOf::BarePackages
            } else {
                ListOf::Packages
            }
        }
        Section::Connections(version) if field == PACKAGE_PART => {
            if version < VERSIONED {
                ListOf::BareEntries
            } else {
                ListOf::Entries
            }
        }
        _ => ListOf::Numbers,
    }
}

// The form of that list.
pub fn form_of(section: Section, field: usize) -> Form
    ensures { (result ≡ form_of section field) × FormFits result }
{
    list_form(field_list(section, field))
}

// The key of a code: what is left of it without the lower bits.
pub fn code_key(form: Form, code: u64) -> u64
    requires { FormFits form }
    ensures { result ≡ code_key form code }
{
    code >> form.lower
}

// Whether a code may stand where keys are at least so high: the high half of its lower bits is at most the low one.
fn code_next(form: Form, least: u64, code: u64) -> bool
    requires { FormFits form }
    ensures { result ≡ code_next form least code }
{
    let key = code_key(form, code);
    let lower = code - (key << form.lower);
    least <= key && lower / HALF <= lower % HALF
}

// The code of the element at a place, where it may stand there.
pub fn code_at(bytes: &[u8], at: usize, form: Form, least: u64) -> Option<At<u64>>
    requires { (at ≤ length bytes.now) × FormFits form }
    ensures { Answer (NextCode form least) (element_bytes form) bytes.now at result }
{
    let read = long_at(bytes, at, form.width)?;
    let code = (read.value << form.skipped) + form.rest;
    if !code_next(form, least, code) {
        return None;
    }
    Some(At {
        value: code,
        next: read.next,
    })
}
