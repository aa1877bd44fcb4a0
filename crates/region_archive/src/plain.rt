// Whether a graph has versions: an older image has none, and stands for version 0 of a package and every version of an entry.
ghost use Rattle.std.specs.Prelude.{◌≡◌, eqb, All};
ghost use Rattle.region_graph.specs.Lists.{every};
ghost use Rattle.region_graph.specs.Record.{Valid, meaning, bundle_in, connection_in};
ghost use Rattle.region_archive.specs.Image;
ghost use Rattle.region_archive.specs.RecordFields.{BundleFits, ConnectionFits};

use region_graph::size::EVERYTHING;
use region_graph::{Graph, StoredBundle, StoredConnection};

// The versions that an older image stands for: of a package, and the lowest and the highest of an entry.
const NO_VERSION: u16 = 0;

const LOWEST: u16 = 0;

const HIGHEST: u16 = 65535;

// Whether all versions of a list are one version.
fn all_are(versions: &[u16], version: u16) -> bool
    ensures { result ≡ every (λ v. eqb v version) versions.now }
{
    versions.iter().all(|v| *v == version)
}

// Whether all packages of a bundle have version 0.
fn plain_bundle(bundle: &StoredBundle) -> bool
    requires { BundleFits bundle.now }
    ensures { result ≡ Image.plain_bundle (bundle_in bundle.now) }
{
    let packages = &bundle.packages;
    all_are(&packages.versions[..packages.count], NO_VERSION)
}

// Whether all entries of a connection's package part run from 0 to 65535.
fn plain_connection(connection: &StoredConnection) -> bool
    requires { ConnectionFits connection.now }
    ensures { result ≡ Image.plain_connection (connection_in connection.now) }
{
    let entries = &connection.packages;
    let count = entries.count;
    count == EVERYTHING
        || all_are(&entries.lowest[..count], LOWEST) && all_are(&entries.highest[..count], HIGHEST)
}

// Whether all bundles are such. A line for bundles and one for connections, each with its test.
fn plain_bundles(bundles: &[StoredBundle]) -> bool
    requires { All BundleFits bundles.now }
    ensures { result ≡ every (λ b. Image.plain_bundle (bundle_in b)) bundles.now }
{
    bundles.iter().all(|bundle| plain_bundle(bundle))
}

// Whether all connections are such.
fn plain_connections(connections: &[StoredConnection]) -> bool
    requires { All ConnectionFits connections.now }
    ensures { result ≡ every (λ c. Image.plain_connection (connection_in c)) connections.now }
{
    connections
        .iter()
        .all(|connection| plain_connection(connection))
}

// Whether a graph has no versions.
pub fn unversioned(graph: &Graph) -> bool
    requires { Valid graph.now }
    ensures { result ≡ Image.unversioned (meaning graph.now) }
{
    plain_bundles(graph.bundles()) && plain_connections(graph.connections())
}
