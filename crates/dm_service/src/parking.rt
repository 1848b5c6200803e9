//! Events of accesses, and the accesses that wait for them.
ghost use Rattle.std.specs.Prelude.{◌≡◌, ◌≢◌, ◌+◌, None, Some, is_some, if◌then◌else◌, IsSome, IfOk, IfSome, OnOk, OnErr};
ghost use Rattle.hsm_types.specs.Sessions.{posted, IsNewToken};
ghost use Rattle.hsm_types.specs.Keyed.{set_at};
ghost use Rattle.plain_model.specs.Accesses.{event_message};
ghost use Rattle.plain_model.specs.Ledger.{next_token};
ghost use Rattle.access_park.specs.declared.access.Access.{Access};
ghost use Rattle.dm_service.specs.Tables.{awaited_in, ledger_of, seen, waiting};
ghost use Rattle.dm_service.specs.Parking.{blocked, parked, parked_on, with_access, with_event, MayWait};

use crate::service::DmService;
use crate::tokens::next_token;
use access_park::Access;
use dm_sessions::Sessions;
use hsm_types::{Bytes, CallerId, Handle, Kind, Message, Range, Token};
use std::alloc::{AllocError, Global};

impl DmService {
    /// Posts an event of that kind on a file, which tells these two numbers, and gives its token.
    pub fn post(
        &mut self,
        alloc: Global,
        kind: Kind,
        handle: Handle,
        told: Range,
    ) -> Result<Token, AllocError>
        requires access { kind ≢ Kind.User }
        requires length { kind ≡ Kind.Truncate → told.len ≡ 0 }
        ensures token { IfOk result (λ t. t ≡ next_token (ledger_of self.old)) }
        ensures after { OnOk result (seen self.new ≡ with_event kind handle told (seen self.old)) }
        ensures park { waiting self.new ≡ waiting self.old }
        ensures may_wait { IfOk result (λ t. (access : Access) → MayWait self.new (parked kind t access)) }
        ensures err { OnErr result (self.new ≡ self.old) }
        ensures counted { OnOk result (awaited_in self.new ≡ awaited_in self.old + 1) }
    {
        let open_tokens = self.open_tokens;
        let token = next_token(self.tokens)?;
        post_message(&mut self.sessions, alloc, kind, token, handle, told)?;
        self.tokens = token.0;
        self.open_tokens = open_tokens + 1;
        Ok(token)
    }

    /// Posts an event of an access, which is the caller's then and waits for the response.
    pub fn park_on(
        &mut self,
        alloc: Global,
        caller: CallerId,
        access: Access,
        kind: Kind,
        handle: Handle,
        told: Range,
    ) -> Result<Token, AllocError>
        requires idle { waiting self.old caller ≡ None }
        requires access { kind ≢ Kind.User }
        requires length { kind ≡ Kind.Truncate → told.len ≡ 0 }
        ensures token { IfOk result (λ t. t ≡ next_token (ledger_of self.old)) }
        ensures after { OnOk result (seen self.new ≡ parked_on caller access kind handle told (seen self.old)) }
        ensures err { OnErr result (self.new ≡ self.old) }
        ensures counted { OnOk result (awaited_in self.new ≡ awaited_in self.old + 2) }
    {
        let token = self.post(alloc, kind, handle, told)?;
        self.park(caller, parked(access, kind, token));
        Ok(token)
    }

    /// Posts another event of the caller's access, which waits for the response to that one then.
    pub fn park_again(
        &mut self,
        alloc: Global,
        caller: CallerId,
        kind: Kind,
        handle: Handle,
        told: Range,
    ) -> Result<Token, AllocError>
        requires waits { IsSome (waiting self.old caller) }
        requires access { kind ≢ Kind.User }
        requires length { kind ≡ Kind.Truncate → told.len ≡ 0 }
        ensures token { IfOk result (λ t. t ≡ next_token (ledger_of self.old)) }
        ensures after { OnOk result (IfSome (waiting self.old caller) (λ access. seen self.new ≡ parked_on caller access kind handle told (seen self.old))) }
        ensures err { OnErr result (self.new ≡ self.old) }
        ensures counted { OnOk result (awaited_in self.new ≡ awaited_in self.old + 1) }
    {
        let token = self.post(alloc, kind, handle, told)?;
        let access = self.end(caller).unwrap();
        self.park(caller, parked(access, kind, token));
        Ok(token)
    }

    /// Lets an access of the caller wait for no token.
    pub fn block(&mut self, caller: CallerId, access: Access)
        requires idle { waiting self.old caller ≡ None }
        ensures after { seen self.new ≡ with_access caller (Some (blocked access)) (seen self.old) }
        ensures counted { awaited_in self.new ≡ awaited_in self.old + 1 }
    {
        self.park(caller, blocked(access));
    }

    /// Lets the caller's access wait on for no token, whatever it has waited for.
    pub fn block_again(&mut self, caller: CallerId)
        requires { IsSome (waiting self.old caller) }
        ensures after { IfSome (waiting self.old caller) (λ access. seen self.new ≡ with_access caller (Some (blocked access)) (seen self.old)) }
        ensures counted { awaited_in self.new ≡ awaited_in self.old }
    {
        let access = self.end(caller).unwrap();
        self.block(caller, access);
    }

    /// Lets an access of the caller wait.
    pub fn park(&mut self, caller: CallerId, access: Access)
        requires idle { waiting self.old caller ≡ None }
        requires may_wait { MayWait self.old access }
        ensures after { seen self.new ≡ with_access caller (Some access) (seen self.old) }
        ensures park { waiting self.new ≡ set_at caller (Some access) (waiting self.old) }
        ensures counted { awaited_in self.new ≡ awaited_in self.old + 1 }
    {
        // Read for what is true of its number.
        let _number = caller.number();
        self.park.park(caller, access);
    }

    /// Takes the access of the caller out, if one waits. It may be put back.
    pub fn end(&mut self, caller: CallerId) -> Option<Access>
        ensures access { result ≡ waiting self.old caller }
        ensures after { seen self.new ≡ with_access caller None (seen self.old) }
        ensures park { waiting self.new ≡ set_at caller None (waiting self.old) }
        ensures may_wait { IfSome result (λ access. MayWait self.new access) }
        ensures counted { awaited_in self.new + (if is_some result then 1 else 0) ≡ awaited_in self.old }
    {
        // Read for what is true of its number.
        let _number = caller.number();
        self.park.end(caller)
    }
}

/// Posts the message of an event, which takes no memory of its own.
fn post_message(
    sessions: &mut Sessions,
    alloc: Global,
    kind: Kind,
    token: Token,
    handle: Handle,
    told: Range,
) -> Result<(), AllocError>
    requires access { kind ≢ Kind.User }
    requires length { kind ≡ Kind.Truncate → told.len ≡ 0 }
    requires new { IsNewToken token sessions.old }
    ensures after { OnOk result (sessions.new ≡ posted (event_message kind token handle told) sessions.old) }
    ensures err { OnErr result (sessions.new ≡ sessions.old) }
{
    sessions.post(Message {
        kind,
        token,
        handle: Some(handle),
        offset: told.offset,
        length: told.len,
        body: Bytes::from(Vec::new(alloc)),
    })
}

/// The access as it waits for no token.
fn blocked(access: Access) -> Access
    ensures { result ≡ blocked access }
{
    Access {
        token: None,
        answer: None,
        ..access
    }
}

/// The access as it waits for the token of an event of that kind. A continue will clear it.
fn parked(access: Access, kind: Kind, token: Token) -> Access
    ensures { result ≡ parked kind token access }
{
    Access {
        cleared: true,
        spaced: access.spaced || kind == Kind::NoSpace,
        token: Some(token),
        answer: None,
        ..access
    }
}
