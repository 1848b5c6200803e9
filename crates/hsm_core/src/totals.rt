//! How many segments of a store are offline.
ghost use Rattle.std.specs.Prelude.{◌≡◌, sum_by};
ghost use Rattle.hsm_core.specs.Summaries.{offline_by};

use meta_store::Catalog;
use stub_map::StubMap;

/// How many segments of all files are offline. It costs a step for each file and each entry.
pub(crate) fn offline_of(catalog: &Catalog) -> u64
    ensures { result ≡ sum_by (λ f. offline_by f.kept.stubs) catalog.now.files }
{
    let mut offline = 0;
    for index in 0..catalog.names().len() {
        let (_key, _name, _size, parts) = catalog.file(index).unwrap();
        offline += u64::from(offline_by(parts.stubs()));
    }
    offline
}

/// How many segments of one file are offline.
fn offline_by(stubs: &StubMap) -> u32
    ensures { result ≡ offline_by stubs.now }
{
    // Read for its range, which bounds the number of entries.
    let _entries = stubs.len();
    stubs.iter().filter(|(_, stub)| stub.offline).count() as u32
}
