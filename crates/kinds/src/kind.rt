ghost use Rattle.std.specs.Prelude.{◌≡◌, ℕ, ◌≤◌, true, is_some, Some, Option};

// A kind of value: each value has a number form, and a number that is no form reads as nothing.
pub trait Kind: Sized {
    // The greatest form.
    const GREATEST: u64;

    ghost GREATEST: { ℕ };

    ghost form: { Self → ℕ };

    ghost parse: { ℕ → Option Self };

    fn to_form(&self) -> u64
        ensures { result ≡ form self.now };

    fn from_form(number: u64) -> Option<Self>
        ensures { result ≡ parse number };

    ghost reads_back: { (v : Self) → parse (form v) ≡ Some v };

    ghost only_forms: { (n : ℕ) (v : Self) → parse n ≡ Some v → n ≡ form v };

    ghost bounded: { (v : Self) → form v ≤ GREATEST };

    ghost attained: { is_some (parse GREATEST) ≡ true };
}
