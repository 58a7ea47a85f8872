//! A law on the definition, the contract of a function that does nothing.
ghost use Rattle.std.specs.Prelude.{◌≡◌, ℕ, List, Some};
ghost use Rattle.m2_io.specs.Files.{Files};
ghost use Rattle.object_file.specs.Contents.{Contents};
ghost use Rattle.program_load.specs.Closure.{start};
ghost use Rattle.program_load.specs.Loads.{Failure, Finds, Loading, Loads, Stops};

/// Over given files loading comes to one thing, and so does finding the object of a module.
pub fn one_loading()
    ensures program { (files : Files) (main : List ℕ) (this that : Loading) → Loads (Some files) main this
        → Loads (Some files) main that → this ≡ that }
    ensures object { (files : Files) (name : List ℕ) (this that : Contents) → Finds (Some files) name this
        → Finds (Some files) name that → this ≡ that }
    ensures failure { (files : Files) (name : List ℕ) (this that : Failure) → Stops (Some files) (start name) name this
        → Stops (Some files) (start name) name that → this ≡ that }
    ensures either { (files : Files) (name : List ℕ) (object : Contents) (failure : Failure)
        → Finds (Some files) name object → Stops (Some files) (start name) name failure → ⊥ }
{}
