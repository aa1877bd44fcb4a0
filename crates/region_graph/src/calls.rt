// The six changing calls. Each asks its questions in their order, and then changes the graph in place; a refused one changes nothing.
ghost use Rattle.std.specs.Prelude.{◌≡◌};
ghost use Rattle.region_graph.specs.Refusals.{answer_number};
ghost use Rattle.region_graph.specs.Calls.{Call, first_no, new_region_questions, region_questions, end_questions, provided_questions, bundle_questions, connection_questions};
ghost use Rattle.region_graph.specs.Sets.{members};
ghost use Rattle.region_graph.specs.Record.{Valid, meaning};
ghost use Rattle.region_graph.specs.Handed.{package_list, handed_bundle, handed_connection};
ghost use Rattle.region_graph.specs.Promise.{changed, Follows};

use crate::Graph;
use crate::bundles::{BundleLists, StoredBundle};
use crate::connections::{FilterLists, StoredConnection};
use crate::numbers::Provided;
use crate::packages::Packages;
use crate::refusals::Refusal;
use crate::region_set::{difference, has, is_region, singleton};
use crate::size::{MOST_BUNDLES, MOST_CONNECTIONS};

// About a region that is to be new.
#[tactic(auto, using(crate::proofs::Storing::has_member))]
fn ask_new_region(regions: u64, region: u32) -> Result<(), Refusal>
    ensures { answer_number result ≡ first_no (new_region_questions (members regions) region) }
{
    if !is_region(region) {
        return Err(Refusal::NotARegion);
    }
    if has(regions, region) {
        return Err(Refusal::RegionUsed);
    }
    Ok(())
}

// About a region that is to be there.
#[tactic(auto, using(crate::proofs::Storing::has_member))]
fn ask_region(regions: u64, region: u32) -> Result<(), Refusal>
    ensures { answer_number result ≡ first_no (region_questions (members regions) region) }
{
    if !is_region(region) {
        return Err(Refusal::NotARegion);
    }
    if !has(regions, region) {
        return Err(Refusal::NoSuchRegion);
    }
    Ok(())
}

// About a bundle's region and lists.
fn ask_provided(regions: u64, region: u32, lists: BundleLists<'_>) -> Result<(), Refusal>
    ensures { answer_number result ≡ first_no (provided_questions (members regions) region (package_list lists.entry.packages) lists.entry.services.now) }
{
    ask_region(regions, region)?;
    if !lists.within() {
        return Err(Refusal::ListTooLong);
    }
    if !lists.ascends() {
        return Err(Refusal::ListOutOfOrder);
    }
    Ok(())
}

// About a connection's two ends.
#[tactic(auto, using(crate::proofs::Storing::has_member))]
fn ask_ends(regions: u64, source: u32, target: u32) -> Result<(), Refusal>
    ensures { answer_number result ≡ first_no (end_questions (members regions) source target) }
{
    if !(is_region(source) && is_region(target)) {
        return Err(Refusal::NotARegion);
    }
    if !(has(regions, source) && has(regions, target)) {
        return Err(Refusal::NoSuchRegion);
    }
    if source == target {
        return Err(Refusal::EndsEqual);
    }
    Ok(())
}

impl Graph {
    // About a place for a bundle.
    fn ask_bundle(&self, region: u32, location: u32) -> Result<(), Refusal>
        requires { Valid self.now }
        ensures { answer_number result ≡ first_no (bundle_questions (meaning self.now).bundles (meaning self.now).connections region location) }
    {
        if self.has_bundle(location) {
            return Err(Refusal::Installed);
        }
        if self.names(region, location) {
            return Err(Refusal::Filtered);
        }
        if MOST_BUNDLES <= self.bundle_count() {
            return Err(Refusal::Full);
        }
        Ok(())
    }

    // About a place for a connection, and its filter.
    fn ask_connection(
        &self,
        source: u32,
        target: u32,
        filter: FilterLists<'_>,
    ) -> Result<(), Refusal>
        requires { Valid self.now }
        ensures { answer_number result ≡ first_no (connection_questions (meaning self.now).connections (handed_connection source target filter.entry)) }
    {
        if self.has_connection(source, target) {
            return Err(Refusal::Connected);
        }
        if !filter.within() {
            return Err(Refusal::ListTooLong);
        }
        if !filter.ascends() {
            return Err(Refusal::ListOutOfOrder);
        }
        if !filter.ordered() {
            return Err(Refusal::RangeReversed);
        }
        if MOST_CONNECTIONS <= self.connection_count() {
            return Err(Refusal::Full);
        }
        Ok(())
    }

    pub fn add_region(&mut self, region: u32) -> Result<(), Refusal>
        requires { Valid self.old }
        ensures { Follows self.old (Call.add_region region) (changed result self.new) }
    {
        ask_new_region(self.regions, region)?;
        self.regions |= singleton(region);
        Ok(())
    }

    // The region leaves with its bundles and every connection from or to it.
    pub fn remove_region(&mut self, region: u32) -> Result<(), Refusal>
        requires { Valid self.old }
        ensures { Follows self.old (Call.remove_region region) (changed result self.new) }
    {
        ask_region(self.regions, region)?;
        self.regions = difference(self.regions, singleton(region));
        self.bundles.remove_in(region);
        self.connections.remove_touching(region);
        Ok(())
    }

    pub fn install(
        &mut self,
        region: u32,
        location: u32,
        lists: BundleLists<'_>,
    ) -> Result<(), Refusal>
        requires { Valid self.old }
        ensures { Follows self.old (Call.install (handed_bundle region location lists.entry)) (changed result self.new) }
    {
        ask_provided(self.regions, region, lists)?;
        self.ask_bundle(region, location)?;
        let bundle = StoredBundle {
            location,
            region,
            packages: Packages::from_list(lists.packages),
            services: Provided::from_slice(lists.services),
        };
        self.bundles.insert(&bundle);
        Ok(())
    }

    // The bundle leaves; filters do not change.
    pub fn uninstall(&mut self, location: u32) -> Result<(), Refusal>
        requires { Valid self.old }
        ensures { Follows self.old (Call.uninstall location) (changed result self.new) }
    {
        if !self.has_bundle(location) {
            return Err(Refusal::NotInstalled);
        }
        self.bundles.remove_at(location);
        Ok(())
    }

    pub fn connect(
        &mut self,
        source: u32,
        target: u32,
        filter: FilterLists<'_>,
    ) -> Result<(), Refusal>
        requires { Valid self.old }
        ensures { Follows self.old (Call.connect (handed_connection source target filter.entry)) (changed result self.new) }
    {
        ask_ends(self.regions, source, target)?;
        self.ask_connection(source, target, filter)?;
        let connection = StoredConnection::new(source, target, filter);
        self.connections.insert(&connection);
        Ok(())
    }

    pub fn disconnect(&mut self, source: u32, target: u32) -> Result<(), Refusal>
        requires { Valid self.old }
        ensures { Follows self.old (Call.disconnect source target) (changed result self.new) }
    {
        ask_ends(self.regions, source, target)?;
        if !self.has_connection(source, target) {
            return Err(Refusal::NotConnected);
        }
        self.connections.remove_joining(source, target);
        Ok(())
    }
}
