//! Properties of names, patterns and their texts: each function does nothing, and its contract is the property.

ghost use Rattle.std.specs.Prelude.{◌≡◌, ◌≤◌, ℕ, List, length};
ghost use Rattle.noise_names.specs.declared.faults.TextFault.{TextFault};
ghost use Rattle.noise_names.specs.Names.{Names, Section};
ghost use Rattle.noise_names.specs.Plan.{Plan};
ghost use Rattle.noise_names.specs.Text.{Spells};
ghost use Rattle.noise_names.specs.Validity.{IsValid, TokensKeepRules};
ghost use Rattle.noise_names.specs.WrongText.{IsTextFault};

/// A protocol name has at most 82 bytes.
pub fn names_are_short()
    ensures { (bytes : List ℕ) (name : Section) → Names bytes name → length bytes ≤ 82 }
{}

/// Each token of a valid pattern's messages keeps the five rules after the places before it.
pub fn tokens_keep_rules()
    ensures { (p : Plan) → IsValid p → TokensKeepRules p }
{}

/// No text spells two patterns.
pub fn texts_are_unique()
    ensures { (text : List ℕ) (p q : Plan) → Spells text p → Spells text q → p ≡ q }
{}

/// A text has one fault at most.
pub fn text_faults_are_unique()
    ensures { (text : List ℕ) (f g : TextFault) → IsTextFault text f → IsTextFault text g → f ≡ g }
{}

/// A pattern text has at most 413 bytes.
pub fn texts_are_short()
    ensures { (text : List ℕ) (p : Plan) → Spells text p → length text ≤ 413 }
{}
