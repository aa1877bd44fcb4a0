// Short lists of numbers in ascending order.
ghost use Rattle.std.specs.Prelude.{◌≡◌, ◌≤◌, ltb, length};
ghost use Rattle.region_graph.specs.Size.{most_listed, most_provided};
ghost use Rattle.region_graph.specs.Lists.{ascends, member};
ghost use Rattle.region_graph.specs.Record.{store_numbers, numbers_of, store_provided, provided_of};
ghost use Rattle.region_graph.specs.Places.{NumbersStored, ProvidedStored};

use crate::size::{MOST_LISTED, MOST_PROVIDED};

// At most so many numbers: `count` of them, in the first places. A type and another one with fewer places: the C interface takes no struct with
// a parameter.
#[repr(C)]
#[derive(Clone, Copy)]
pub struct Numbers {
    pub count: usize,
    pub items: [u32; MOST_LISTED],
}

// What a bundle brings.
#[repr(C)]
#[derive(Clone, Copy)]
pub struct Provided {
    pub count: usize,
    pub items: [u32; MOST_PROVIDED],
}

impl Numbers {
    // What a list hands in as a value of its own.
    pub(crate) fn from_slice(list: &[u32]) -> Numbers
        requires { length list.now ≤ most_listed }
        ensures { result ≡ store_numbers list.now }
    {
        let mut items = [0u32; MOST_LISTED];
        items[..list.len()].copy_from_slice(list);
        Numbers {
            count: list.len(),
            items,
        }
    }

    pub(crate) fn as_slice(&self) -> &[u32]
        requires { NumbersStored self.now }
        ensures { result.now ≡ numbers_of self.now }
    {
        &self.items[..self.count]
    }
}

impl Provided {
    // What a list hands in as a value of its own.
    pub(crate) fn from_slice(list: &[u32]) -> Provided
        requires { length list.now ≤ most_provided }
        ensures { result ≡ store_provided list.now }
    {
        let mut items = [0u32; MOST_PROVIDED];
        items[..list.len()].copy_from_slice(list);
        Provided {
            count: list.len(),
            items,
        }
    }

    pub(crate) fn as_slice(&self) -> &[u32]
        requires { ProvidedStored self.now }
        ensures { result.now ≡ provided_of self.now }
    {
        &self.items[..self.count]
    }
}

// Whether a list is strictly ascending.
pub fn ascending(list: &[u32]) -> bool
    ensures { result ≡ ascends ltb list.now }
{
    list.is_sorted_by(|a, b| a < b)
}

// Whether a list has a number.
pub fn has_number(list: &[u32], number: u32) -> bool
    ensures { result ≡ member number list.now }
{
    list.contains(&number)
}
