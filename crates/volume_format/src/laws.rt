//! Laws on the bytes of objects, each the contract of a function that does nothing. A caller gets the law by a call.
ghost use Rattle.std.specs.Prelude.{◌≡◌, ℕ, ◌<◌, List, None, All};
ghost use Rattle.hsm_types.specs.declared.keys.Handle.{Handle};
ghost use Rattle.volume_format.specs.Objects.{IsObject, bad_place};
ghost use Rattle.volume_format.specs.Laws.{IsSomeObject, IsSame, IsFramed};

/// What is written is read back.
pub fn reads_back()
    ensures { (handle : Handle) (segment : ℕ) (payload object : List ℕ) → IsObject handle segment payload object → bad_place object ≡ None }
{}

/// Bytes in which no place is wrong are an object, to the last one.
pub fn object_or_bad()
    ensures { (bytes : List ℕ) → All (λ byte. byte < 256) bytes → bad_place bytes ≡ None → IsSomeObject bytes }
{}

/// No bytes are two objects.
pub fn one_reading()
    ensures { (object : List ℕ) (h g : Handle) (i j : ℕ) (p q : List ℕ) → IsObject h i p object → IsObject g j q object → IsSame h g i j p q }
{}

/// The payload is what follows the first 72 bytes.
pub fn payload_follows()
    ensures { (handle : Handle) (segment : ℕ) (payload object : List ℕ) → IsObject handle segment payload object → IsFramed payload object }
{}
