//! Lists, as types of their own. Contracts see each as the list of its items.
ghost use Rattle.std.specs.Prelude.{◌≡◌};

use crate::attributes::AttrName;
use crate::keys::{Sid, Token};
use crate::regions::Region;
use crate::stubs::Segment;
use crate::tables::FileRow;
use std::alloc::{AllocError, Global};
use std::marker::{Model, PhantomData};

/// A list of items. `As` is what they are used as, where two lists of such items are to be two types.
#[derive(Drop)]
pub struct ListOf<T, As = ()> {
    items: Vec<T>,
    used_as: PhantomData<As>,
}

/// The data of a write or a read.
pub type Bytes = ListOf<u8>;

/// A word of a script, as a file's name. It may be any bytes.
pub type Word = ListOf<u8, Spelled>;

/// Marks the bytes of a word, which are no data.
#[derive(Drop)]
pub struct Spelled;

/// Ids of sessions.
pub type Sids = ListOf<Sid>;

/// Tokens of events.
pub type Tokens = ListOf<Token>;

/// Managed regions of a file.
pub type Regions = ListOf<Region>;

/// Names of attributes.
pub type Names = ListOf<AttrName>;

/// The states of a file's segments, from the first on.
pub type Segments = ListOf<Segment>;

/// Files as a table tells them.
pub type FileRows = ListOf<FileRow>;

impl<T, As> Model for ListOf<T, As> {
    ghost use Rattle.std.specs.Prelude.{List};

    ghost Value = { List T };

    ghost view = { λ l. l.items.items };
}

impl<T, As> From<Vec<T>> for ListOf<T, As> {
    ghost from_gives = { λ v l. l ≡ v.items };

    fn from(items: Vec<T>) -> ListOf<T, As> {
        ListOf {
            items,
            used_as: PhantomData,
        }
    }
}

impl<T, As> ListOf<T, As> {
    pub fn as_slice(&self) -> &[T]
        ensures { result.now ≡ self.now }
    {
        self.items.as_slice()
    }

    /// What its memory is from.
    pub(crate) fn allocator(&self) -> Global {
        *self.items.allocator()
    }

    pub fn into_vec(self) -> Vec<T>
        ensures { result.items ≡ self }
    {
        self.items
    }
}

impl<T: Copy, As> Clone for ListOf<T, As> {
    ghost is_clone = { λ l m. m ≡ l };

    fn clone(&self) -> Result<ListOf<T, As>, AllocError> {
        let items = Vec::from_slice(*self.items.allocator(), self.items.as_slice())?;
        Ok(ListOf::from(items))
    }
}
