//! Laws of Error objects, apart from any run of the reader.

ghost use Rattle.std.specs.Prelude.{◌≡◌, ◌<◌, ◌≤◌, ◌^◌, ℕ, List, length, pos};
ghost use Rattle.dap_errors.specs.Printed.{error_text};
ghost use Rattle.dap_errors.specs.Reading.{limit, ErrorOf, IsBad, IsCut};
ghost use Rattle.dap_errors.specs.declared.object.ErrorObject.{ErrorObject};

/// A text is an object that says one thing, or bad at one place, or cut.
pub fn one_reading()
    ensures one_object { (text : List ℕ) (one other : ErrorObject) → ErrorOf text one → ErrorOf text other → one ≡ other }
    ensures one_place { (text : List ℕ) (place other : ℕ) → IsBad text place → IsBad text other → place ≡ other }
    ensures object_not_bad { (text : List ℕ) (error : ErrorObject) (place : ℕ) → ErrorOf text error → IsBad text place → ⊥ }
    ensures object_not_cut { (text : List ℕ) (error : ErrorObject) → ErrorOf text error → IsCut text → ⊥ }
    ensures bad_not_cut { (text : List ℕ) (place : ℕ) → IsBad text place → IsCut text → ⊥ }
{}

/// A printed error whose code has at most 9 digits, and whose text is within the limit, is read back.
pub fn read_back()
    ensures { (code : ℕ) (message : List ℕ) → code < 10 ^ 9 → length (error_text code message) ≤ limit → (error : ErrorObject) → error.code ≡ pos code → error.message ≡ message → ErrorOf (error_text code message) error }
{}
