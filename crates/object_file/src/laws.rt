//! Laws on the definitions, each the contract of a function that does nothing.
ghost use Rattle.std.specs.Prelude.{◌≡◌, ℕ, List};
ghost use Rattle.object_file.specs.Contents.{Contents, world_of};
ghost use Rattle.object_file.specs.FieldsOf.{HasFields};
ghost use Rattle.object_file.specs.Validity.{HaveValidCode, IsObject, IsBadAt, IsValid};

/// Bytes are one object at most, and then nothing is wrong with them.
pub fn one_object()
    ensures object { (bytes : List ℕ) (o o' : Contents) → IsObject bytes o → IsObject bytes o' → o ≡ o' }
    ensures fine { (bytes : List ℕ) (o : Contents) (offset code : ℕ) → IsObject bytes o → IsBadAt bytes offset code
        → ⊥ }
{}

/// Bytes have one first broken place at most.
pub fn one_fault()
    ensures place { (bytes : List ℕ) (offset code offset' code' : ℕ) → IsBadAt bytes offset code
        → IsBadAt bytes offset' code' → offset ≡ offset' }
    ensures code { (bytes : List ℕ) (offset code offset' code' : ℕ) → IsBadAt bytes offset code
        → IsBadAt bytes offset' code' → code ≡ code' }
{}

/// What has the fields that are asked, and valid code, is a valid object.
pub fn parts_are_valid()
    ensures { (o : Contents) → HasFields o → HaveValidCode (world_of o) 0 o.procedures → IsValid o }
{}
