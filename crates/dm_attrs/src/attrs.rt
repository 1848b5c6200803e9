//! The attributes of one file.
ghost use Rattle.std.specs.Prelude.{◌≡◌, ◌+◌, ◌≤◌, ◌^◌, [], None, Some, IfOk, IfErr, OnOk, OnErr, MatchOption, MatchResult, length};
ghost use Rattle.std.specs.Option.{option_copied};
ghost use Rattle.std.specs.List.Sorted.{IsStrictlySortedBy};
ghost use Rattle.std.specs.Map.{keys_of};
ghost use Rattle.hsm_types.specs.Attributes.{AreAttributes, name_cmp, value_of, with_value, without_value, cost_of_value};
ghost use Rattle.hsm_types.specs.Attributes.{bytes_of_attributes, reserved, setting_refusal, removal_refusal};
ghost use Rattle.dm_attrs.specs.Counts.{cost_under};
ghost use Rattle.hsm_types.specs.declared.dm.DmRefusal.TheVariants.{Memory};

use hsm_types::{ATTRIBUTE_COST, AttrName, Bytes, DmRefusal, Names, VALUE_BYTES};
use std::alloc::{AllocError, Global};
use std::collections::BTreeMap;
use std::collections::btree_map::Iter;
use std::marker::Model;

/// The values of the attributes by name, and how many bytes they count.
#[derive(Drop)]
pub struct DmAttrs {
    by_name: BTreeMap<AttrName, Bytes>,
    bytes: u64,
}

impl Model for DmAttrs {
    ghost use Rattle.hsm_types.specs.Attributes.{Attributes};
    ghost use Rattle.dm_attrs.specs.Counts.{IsCounted};

    ghost Value = { Attributes };

    ghost view = { λ a. a.by_name.entries };

    ghost invariant = { λ a. IsCounted a.bytes a.by_name.entries };
}

impl DmAttrs {
    /// No attribute.
    pub fn new(alloc: Global) -> DmAttrs
        ensures { result ≡ [] }
    {
        DmAttrs {
            by_name: BTreeMap::new(alloc),
            bytes: 0,
        }
    }

    /// Gives the attribute with that name a value, in the place of an older one. The attributes of all other files count `others`, and of all files
    /// `limit` at most.
    pub fn set(
        &mut self,
        name: AttrName,
        value: Bytes,
        others: u64,
        limit: u64,
    ) -> Result<(), DmRefusal>
        requires others { others ≤ limit }
        requires limit { limit ≤ 2 ^ 32 }
        ensures ok { OnOk result (setting_refusal name value others limit self.old ≡ None) }
        ensures after { OnOk result (self.new ≡ with_value name value self.old) }
        ensures refused { IfErr result (λ why. MatchOption (setting_refusal name value others limit self.old) (why ≡ Memory) (λ cause. why ≡ cause)) }
        ensures err { OnErr result (self.new ≡ self.old) }
    {
        let after = self.check_attribute(name, &value, others, limit)?;
        let _old = self
            .by_name
            .insert(name, value)
            .map_err(|_| DmRefusal::Memory)?;
        self.bytes = after;
        Ok(())
    }

    /// What the attributes count once that one is set, or what refuses to set it. It takes no memory.
    fn check_attribute(
        &self,
        name: AttrName,
        value: &Bytes,
        others: u64,
        limit: u64,
    ) -> Result<u64, DmRefusal>
        requires others { others ≤ limit }
        requires limit { limit ≤ 2 ^ 32 }
        ensures ok { OnOk result (setting_refusal name value.now others limit self.now ≡ None) }
        ensures after { IfOk result (λ bytes. bytes ≡ bytes_of_attributes (with_value name value.now self.now)) }
        ensures refused { IfErr result (λ why. setting_refusal name value.now others limit self.now ≡ Some why) }
    {
        check_unreserved(name)?;
        let len = value.as_slice().len();
        if len > VALUE_BYTES {
            return Err(DmRefusal::AttrTooBig { len: len as u64 });
        }
        let after = self.bytes_with(name, value);
        let count = others + after;
        if count > limit {
            return Err(DmRefusal::TooMany { count });
        }
        Ok(after)
    }

    /// What the attributes count once that one is set.
    fn bytes_with(&self, name: AttrName, value: &Bytes) -> u64
        requires { length value.now ≤ VALUE_BYTES }
        ensures sum { result ≡ bytes_of_attributes (with_value name value.now self.now) }
        ensures few { result ≤ 2 ^ 32 + cost_of_value value.now }
    {
        self.bytes - self.cost_under(name) + cost_of(value)
    }

    /// What the attribute with that name counts, 0 where there is none.
    fn cost_under(&self, name: AttrName) -> u64
        ensures { result ≡ cost_under name self.now }
    {
        match self.get(name) {
            Some(value) => cost_of(value),
            None => 0,
        }
    }

    /// The value of the attribute with that name.
    pub fn get(&self, name: AttrName) -> Option<&Bytes>
        ensures { option_copied result ≡ value_of name self.now }
    {
        self.by_name.get(&name)
    }

    /// Takes the attribute with that name away. It takes no memory.
    pub fn remove(&mut self, name: AttrName) -> Result<(), DmRefusal>
        ensures ok { OnOk result (removal_refusal name self.old ≡ None) }
        ensures after { OnOk result (self.new ≡ without_value name self.old) }
        ensures refused { IfErr result (λ why. removal_refusal name self.old ≡ Some why) }
        ensures err { OnErr result (self.new ≡ self.old) }
    {
        check_unreserved(name)?;
        let Some(old) = self.by_name.remove(&name) else {
            return Err(DmRefusal::NoAttr);
        };
        self.bytes -= cost_of(&old);
        Ok(())
    }

    /// The names of all attributes.
    pub fn list(&self, alloc: Global) -> Result<Names, AllocError>
        ensures names { IfOk result (λ names. names ≡ keys_of self.now) }
        ensures ascending { IfOk result (λ names. IsStrictlySortedBy name_cmp names) }
    {
        let names: Vec<AttrName> = self.by_name.keys().copied().collect(alloc)?;
        Ok(Names::from(names))
    }

    /// The attributes in the order of their names.
    pub fn iter(&self) -> Iter<'_, AttrName, Bytes>
        ensures rest { result ≡ self.now }
        ensures attributes { AreAttributes self.now }
    {
        // Read for what is true of the attributes of every file.
        let _bytes = self.bytes;
        self.by_name.iter()
    }

    /// How many attributes there are.
    pub fn len(&self) -> u32
        ensures { result ≡ length self.now }
    {
        // Read for its bound.
        let _bytes = self.bytes;
        self.by_name.len() as u32
    }

    /// How many bytes the attributes count.
    pub fn bytes(&self) -> u64
        ensures count { result ≡ bytes_of_attributes self.now }
        ensures attributes { AreAttributes self.now }
    {
        self.bytes
    }
}

/// That a name isn't kept for the store.
fn check_unreserved(name: AttrName) -> Result<(), DmRefusal>
    ensures { MatchResult result (λ _. reserved name ≡ None) (λ why. reserved name ≡ Some why) }
{
    if name.is_reserved() {
        return Err(DmRefusal::Reserved);
    }
    Ok(())
}

/// What an attribute with that value counts.
fn cost_of(value: &Bytes) -> u64
    ensures { result ≡ cost_of_value value.now }
{
    ATTRIBUTE_COST + value.as_slice().len() as u64
}
