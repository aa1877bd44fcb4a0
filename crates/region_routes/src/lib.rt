// Routes and hooks: which items a bundle sees through the filtered connections between regions.
#![tactic(auto)]

ghost use Rattle.std.specs.Prelude.{◌≡◌};
ghost use Rattle.region_routes.specs.Hooks.{kind_number, item};

mod hooks;
mod resolver;
mod routes;
mod search;
mod tables;

pub use hooks::{bundle_event, bundle_find, service_event, service_find};
use region_graph::Item;
pub use resolver::{Candidate, resolve};
pub use routes::route;
pub use search::regions_seeing;

// The kinds of items.
#[derive(Clone, Copy, PartialEq, Eq, Debug)]
pub enum Kind {
    Bundle = 0,
    Package = 1,
    Service = 2,
}

impl Kind {
    // The number of a kind.
    pub fn number(self) -> u32
        ensures { result ≡ kind_number self }
    {
        self as u32
    }

    // An item of a kind by its number; a package's has version 0.
    fn item(self, number: u32) -> Item
        ensures { result ≡ item (kind_number self) number 0 }
    {
        Item {
            kind: self.number(),
            number,
            version: 0,
        }
    }
}
