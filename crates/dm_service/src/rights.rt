//! Calls of sessions on what tokens hold, of files that live and of tokens that may ask.
ghost use Rattle.std.specs.Prelude.{◌≡◌, [], ◌∷◌, true, false, IfErr, OnOk, OnErr};
ghost use Rattle.hsm_types.specs.Refusals.{first_refusal};
ghost use Rattle.hsm_types.specs.Rights.{reaches, right_of, conflict, busy, too_low, bad_right, requested, with_right, without_right};
ghost use Rattle.hsm_types.specs.declared.dm.DmRefusal.TheVariants.{Memory};
ghost use Rattle.hsm_types.specs.declared.dm.Right.TheVariants.{Shared, Excl};
ghost use Rattle.dm_service.specs.Services.{Judges, JudgesOrLacks};
ghost use Rattle.dm_service.specs.Tables.{is_open};

use crate::service::DmService;
use hsm_types::{DmRefusal, FileKey, Right, Token};

impl DmService {
    /// Whether a call may go with that token where it needs that right on the file. Token 0 is none: the call takes the right then, if no token's right
    /// excludes it. It takes no memory.
    pub fn allow(&self, token: Token, key: FileKey, need: Right) -> Result<(), DmRefusal>
        ensures { Judges result (bad_right token key need self.now.rights) }
    {
        self.rights.allow(token, key, need)
    }

    /// What the token has on the file.
    pub fn query(&self, token: Token, key: FileKey) -> Right
        ensures { result ≡ right_of token key self.now.rights }
    {
        self.rights.query(token, key)
    }

    /// Gives an open token a right on the file. What it has already stays, if that is as high, and then it takes no memory.
    pub fn request(&mut self, token: Token, key: FileKey, right: Right) -> Result<(), DmRefusal>
        requires { is_open self.old.sessions token.0 ≡ true }
        ensures judged { JudgesOrLacks result (busy (conflict key right token self.old.rights)) }
        ensures held { IfErr result (λ why. why ≡ Memory → reaches (right_of token key self.old.rights) right ≡ false) }
        ensures after { OnOk result (self.new ≡ record self.old { rights = requested token key right self.old.rights }) }
        ensures err { OnErr result (self.new ≡ self.old) }
    {
        self.rights.request(token, key, right)
    }

    /// Takes the token's right on the file, if it has one. It takes no memory.
    pub fn release(&mut self, token: Token, key: FileKey)
        ensures { self.new ≡ record self.old { rights = without_right token key self.old.rights } }
    {
        self.rights.release(token, key);
    }

    /// Makes the token's right on the file exclusive. It takes no memory.
    pub fn upgrade(&mut self, token: Token, key: FileKey) -> Result<(), DmRefusal>
        ensures judged { Judges result (first_refusal (too_low Shared (right_of token key self.old.rights) ∷ busy (conflict key Excl token self.old.rights) ∷ [])) }
        ensures after { OnOk result (self.new ≡ record self.old { rights = with_right token key Excl self.old.rights }) }
        ensures err { OnErr result (self.new ≡ self.old) }
    {
        self.rights.upgrade(token, key)
    }

    /// Makes the token's exclusive right on the file one that others may have too. It takes no memory.
    pub fn downgrade(&mut self, token: Token, key: FileKey) -> Result<(), DmRefusal>
        ensures judged { Judges result (too_low Excl (right_of token key self.old.rights)) }
        ensures after { OnOk result (self.new ≡ record self.old { rights = with_right token key Shared self.old.rights }) }
        ensures err { OnErr result (self.new ≡ self.old) }
    {
        self.rights.downgrade(token, key)
    }
}
