//! The rights of tokens on files.
ghost use Rattle.std.specs.Prelude.{◌≡◌, ◌≢◌, [], ◌∷◌, None, Some, false, IfErr, OnOk, OnErr, MatchOption, MatchResult};
ghost use Rattle.std.specs.Option.{IsSome};
ghost use Rattle.std.specs.Map.{lookup};
ghost use Rattle.hsm_types.specs.Refusals.{first_refusal};
ghost use Rattle.hsm_types.specs.Rights.{AreRights, bad_right, busy, conflict, holding, reaches, released, requested, right_of, same_holding};
ghost use Rattle.hsm_types.specs.Rights.{too_low, with_right, without_right};
ghost use Rattle.hsm_types.specs.declared.dm.DmRefusal.TheVariants.{Memory};
ghost use Rattle.hsm_types.specs.declared.dm.Right.TheVariants.{Null, Shared, Excl};

use crate::held::Held;
use hsm_types::{DmRefusal, FileKey, Holding, Right, Token};
use std::alloc::Global;
use std::collections::{BTreeMap, BTreeSet};
use std::marker::Model;

/// What each token holds. A call costs no walk but over the rights on one file, or over those of one token.
#[derive(Drop)]
pub struct Rights {
    by_file: BTreeMap<Holding, Right>,
    /// The same holdings, in the order of tokens.
    by_token: BTreeSet<Held>,
}

impl Model for Rights {
    ghost use Rattle.hsm_types.specs.Rights.{Rights};
    ghost use Rattle.token_rights.specs.Indices.{AreIndexed};

    ghost Value = { Rights };

    ghost view = { λ r. r.by_file.entries };

    ghost invariant = { λ r. AreIndexed r.by_file.entries r.by_token.keys };
}

impl Rights {
    /// Nobody holds anything.
    pub fn new(alloc: Global) -> Rights
        ensures { result ≡ [] }
    {
        Rights {
            by_file: BTreeMap::new(alloc),
            by_token: BTreeSet::new(alloc),
        }
    }

    /// What the token has on the file.
    pub fn query(&self, token: Token, key: FileKey) -> Right
        ensures right { result ≡ right_of token key self.now }
        ensures ordered { AreRights self.now }
    {
        match self.by_file.get(&Holding { key, token }) {
            Some(right) => *right,
            None => Right::Null,
        }
    }

    /// The lowest other token whose right on the file excludes that one. It looks only at the rights on that file.
    pub fn conflict(&self, key: FileKey, need: Right, own: Token) -> Option<Token>
        ensures token { result ≡ conflict key need own self.now }
        ensures ordered { AreRights self.now }
    {
        let lowest = Holding {
            key,
            token: Token(0),
        };
        let highest = Holding {
            key,
            token: Token(u64::MAX),
        };
        for (holding, right) in self.by_file.range(lowest..=highest) {
            if holding.token != own && need.excludes(*right) {
                return Some(holding.token);
            }
        }
        None
    }

    /// That no other token's right on the file excludes that one.
    fn check_free(&self, key: FileKey, need: Right, own: Token) -> Result<(), DmRefusal>
        ensures { MatchResult result (λ _. busy (conflict key need own self.now) ≡ None) (λ why. busy (conflict key need own self.now) ≡ Some why) }
    {
        match self.conflict(key, need, own) {
            Some(token) => Err(DmRefusal::Busy { token }),
            None => Ok(()),
        }
    }

    /// That a call with this token, which may be 0, has the right that it needs on the file.
    pub fn allow(&self, token: Token, key: FileKey, need: Right) -> Result<(), DmRefusal>
        ensures { MatchResult result (λ _. bad_right token key need self.now ≡ None) (λ why. bad_right token key need self.now ≡ Some why) }
    {
        if token.0 == 0 {
            return self.check_free(key, need, token);
        }
        check_reaches(self.query(token, key), need)
    }

    /// Gives the token that right on the file. What it has already stays, if that is as high, and then it takes no memory.
    pub fn request(&mut self, token: Token, key: FileKey, right: Right) -> Result<(), DmRefusal>
        ensures judged { MatchResult result (λ _. busy (conflict key right token self.old) ≡ None)
            (λ why. MatchOption (busy (conflict key right token self.old)) (why ≡ Memory) (λ cause. why ≡ cause)) }
        ensures held { IfErr result (λ why. why ≡ Memory → reaches (right_of token key self.old) right ≡ false) }
        ensures after { OnOk result (self.new ≡ requested token key right self.old) }
        ensures err { OnErr result (self.new ≡ self.old) }
    {
        self.check_free(key, right, token)?;
        if self.query(token, key).reaches(right) {
            return Ok(());
        }
        self.give(token, key, right)
    }

    /// Gives the token a right on the file that is higher than what it has. Where memory lacks for one index, the other is as before too.
    fn give(&mut self, token: Token, key: FileKey, right: Right) -> Result<(), DmRefusal>
        requires free { conflict key right token self.old ≡ None }
        requires higher { reaches (right_of token key self.old) right ≡ false }
        ensures after { OnOk result (self.new ≡ with_right token key right self.old) }
        ensures memory { IfErr result (λ why. why ≡ Memory) }
        ensures err { OnErr result (self.new ≡ self.old) }
    {
        let held = Held { token, key };
        let _added = self.by_token.insert(held).map_err(|_| DmRefusal::Memory)?;
        if self.by_file.insert(Holding { key, token }, right).is_err() {
            let _removed = self.by_token.remove(&held);
            return Err(DmRefusal::Memory);
        }
        Ok(())
    }

    /// The token has no right on the file then. It takes no memory.
    pub fn release(&mut self, token: Token, key: FileKey)
        ensures { self.new ≡ without_right token key self.old }
    {
        let _right = self.by_file.remove(&Holding { key, token });
        let _held = self.by_token.remove(&Held { token, key });
    }

    /// Makes the token's right on the file exclusive. It takes no memory.
    pub fn upgrade(&mut self, token: Token, key: FileKey) -> Result<(), DmRefusal>
        ensures judged { MatchResult result (λ _. first_refusal (too_low Shared (right_of token key self.old) ∷ busy (conflict key Excl token self.old) ∷ []) ≡ None)
            (λ why. first_refusal (too_low Shared (right_of token key self.old) ∷ busy (conflict key Excl token self.old) ∷ []) ≡ Some why) }
        ensures after { OnOk result (self.new ≡ with_right token key Excl self.old) }
        ensures err { OnErr result (self.new ≡ self.old) }
    {
        check_reaches(self.query(token, key), Right::Shared)?;
        self.check_free(key, Right::Excl, token)?;
        replace(&mut self.by_file, token, key, Right::Excl);
        Ok(())
    }

    /// Makes the token's exclusive right on the file one that others may have too. It takes no memory.
    pub fn downgrade(&mut self, token: Token, key: FileKey) -> Result<(), DmRefusal>
        ensures judged { MatchResult result (λ _. too_low Excl (right_of token key self.old) ≡ None) (λ why. too_low Excl (right_of token key self.old) ≡ Some why) }
        ensures after { OnOk result (self.new ≡ with_right token key Shared self.old) }
        ensures err { OnErr result (self.new ≡ self.old) }
    {
        check_reaches(self.query(token, key), Right::Excl)?;
        replace(&mut self.by_file, token, key, Right::Shared);
        Ok(())
    }

    /// Takes all rights of the token away. It takes no memory, and looks at no other token's rights.
    pub fn end(&mut self, token: Token)
        ensures { self.new ≡ released token self.old }
    {
        while let Some(key) = self.file_of(token) {
            self.release(token, key);
        }
    }

    /// The first of the files that the token holds.
    fn file_of(&self, token: Token) -> Option<FileKey>
        ensures { MatchOption result (released token self.now ≡ self.now) (λ key. IsSome (lookup (same_holding (holding token key)) self.now)) }
    {
        let lowest = Held {
            token,
            key: FileKey { ino: 0, igen: 0 },
        };
        let Some(held) = self.by_token.range(lowest..).next() else {
            return None;
        };
        if held.token != token {
            return None;
        }
        Some(held.key)
    }
}

/// That what a token has on a file is what it needs.
fn check_reaches(have: Right, need: Right) -> Result<(), DmRefusal>
    ensures { MatchResult result (λ _. too_low need have ≡ None) (λ why. too_low need have ≡ Some why) }
{
    if have.reaches(need) {
        Ok(())
    } else {
        Err(DmRefusal::NeedRight { have })
    }
}

/// Puts that right in the place of the one that the token has on the file.
fn replace(by_file: &mut BTreeMap<Holding, Right>, token: Token, key: FileKey, right: Right)
    requires { right_of token key by_file.old.entries ≢ Null }
    ensures { by_file.new.entries ≡ with_right token key right by_file.old.entries }
{
    if let Some(held) = by_file.get_mut(&Holding { key, token }) {
        *held = right;
    }
}
