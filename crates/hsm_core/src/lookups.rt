//! Look-ups of files by name and by key.
ghost use Rattle.std.specs.Prelude.{◌≡◌, is_some};
ghost use Rattle.std.specs.Option.{option_map};
ghost use Rattle.hsm_types.specs.Keyed.{find_key};
ghost use Rattle.plain_model.specs.Plain.{named};
ghost use Rattle.plain_model.specs.State.{names_of};

use disk_model::Disk;
use file_store::FileStore;
use hsm_types::{FileKey, Word};

/// The key of the file with that name.
pub(crate) fn find<D: Disk>(files: &FileStore<D>, name: &Word) -> Option<FileKey>
    ensures { result ≡ option_map (λ l. l.key) (named name.now (names_of files.now.held.files)) }
{
    files.meta().catalog().names().find(name)
}

/// Whether a file has that key.
pub(crate) fn is_live<D: Disk>(files: &FileStore<D>, key: FileKey) -> bool
    ensures { result ≡ is_some (find_key (λ f. f.key) key files.now.held.files) }
{
    files.meta().catalog().names().size(key).is_some()
}
