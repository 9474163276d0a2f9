//! Laws of the definitions alone.

ghost use Rattle.std.specs.Prelude.{◌≡◌, ◌⊎◌, ℕ, List};
ghost use Rattle.wh_model.specs.declared.faults.FaultKind.{FaultKind};
ghost use Rattle.wh_model.specs.Format.Syntax.{Module};
ghost use Rattle.wh_model.specs.Format.Spelling.{AreBytes, Spells, Small, IsBroken};

/// States that bytes have exactly one meaning: one fault, of one kind and at one offset, or one module within the
/// limits, and never both. Does nothing when run: its contract is the law.
pub fn one_meaning()
    ensures one_fault { (b : List ℕ) (kind kind2 : FaultKind) (offset offset2 : ℕ)
        → IsBroken b kind offset → IsBroken b kind2 offset2 → (kind ≡ kind2) × (offset ≡ offset2) }
    ensures one_module { (b : List ℕ) (m n : Module) → Spells b m → Small b m → Spells b n
        → Small b n → m ≡ n }
    ensures not_both { (b : List ℕ) (m : Module) (kind : FaultKind) (offset : ℕ)
        → IsBroken b kind offset → Spells b m → Small b m → ⊥ }
    ensures some_meaning { (b : List ℕ) → AreBytes b
        → ((m : Module) × Spells b m × Small b m)
        ⊎ ((kind : FaultKind) × (offset : ℕ) × IsBroken b kind offset) }
{}
