//! What is kept by types that have integers or processes in place of some parts.
ghost use Rattle.std.specs.Prelude.{◌+◌, ◌<◌, ◌≡◌, ◌≤◌, List, false, length, true, ℕ};
ghost use Rattle.da_values.specs.Marks.{Tok};
ghost use Rattle.da_lang.specs.TypeGrammar.{TypeIn};
ghost use Rattle.da_lang.specs.Types.{is_set, levels, ordered};
ghost use Rattle.da_lang.specs.declared.ty.Ty.{Ty};
ghost use Rattle.type_choice.specs.Lean.{IsLean};
ghost use Rattle.type_choice.specs.Looks.{tokens};

/// A type with integers or processes in place of some parts of another has no more levels than that one, and no more
/// tokens. It is ordered where that one is, and it is no set where that one is none.
pub fn lean_types()
    ensures levels { (x y : Ty) → IsLean x y → levels x ≤ levels y }
    ensures tokens { (x y : Ty) → IsLean x y → tokens x ≤ tokens y }
    ensures ordered { (x y : Ty) → IsLean x y → ordered y ≡ true → ordered x ≡ true }
    ensures single { (x y : Ty) → IsLean x y → is_set y ≡ false → is_set x ≡ false }
{}

/// Whoever spells a type does it by just so many tokens, however many things may be open.
pub fn spelled_types()
    ensures spelled { (more depth : ℕ) (x : Ty) (t r : List Tok) → TypeIn (λ d t. Unit {0}) more depth x t r → length t ≡ tokens x + length r }
    ensures within { (most more depth : ℕ) (x : Ty) (t r : List Tok) → TypeIn (λ d t. d < most) more depth x t r → length t ≡ tokens x + length r }
{}
