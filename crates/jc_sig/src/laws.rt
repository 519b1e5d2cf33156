//! Laws of generic signatures, for every list of bytes and every tree.
ghost use Rattle.std.specs.Prelude.{◌≡◌, ◌↔◌, ◌++◌, ◌∷◌, ℕ, List, Option, Some, IfSome, true, false};
ghost use Rattle.std.specs.List.{AllByRecursion};
ghost use Rattle.jc_sig.specs.Trees.{TypeTree, ClassTree, ParameterTree, ClassSigTree, MethodSigTree, type_text, class_text, types_text, type_parameters_text, result_text, class_sig_text, method_sig_text};
ghost use Rattle.jc_sig.specs.Grammar.{is_identifier, IsBound, IsTop, IsTopClass, IsParameter, IsClassSig, IsMethodSig, IsFieldSig, SpellsClassSig, SpellsMethodSig, SpellsFieldSig};
ghost use Rattle.jc_sig.specs.Rule.{is_bound_by_rule};
ghost use Rattle.jc_sig.specs.Reading.{class_sig_of, method_sig_of, field_sig_of};

/// A class signature is read from exactly the bytes that spell it, a text is that of one tree, and reading
/// and writing undo each other.
pub fn class_sig_laws()
    ensures reads { (bytes : List ℕ) (s : ClassSigTree) → (class_sig_of bytes ≡ Some s) ↔ SpellsClassSig bytes s }
    ensures one { (s t : ClassSigTree) → IsClassSig s → IsClassSig t → class_sig_text s ≡ class_sig_text t → s ≡ t }
    ensures read_back { (s : ClassSigTree) → IsClassSig s → class_sig_of (class_sig_text s) ≡ Some s }
    ensures written_back { (bytes : List ℕ) (s : ClassSigTree) → class_sig_of bytes ≡ Some s → class_sig_text s ≡ bytes }
{}

/// A method signature is read from exactly the bytes that spell it, a text is that of one tree, and reading
/// and writing undo each other.
pub fn method_sig_laws()
    ensures reads { (bytes : List ℕ) (s : MethodSigTree) → (method_sig_of bytes ≡ Some s) ↔ SpellsMethodSig bytes s }
    ensures one { (s t : MethodSigTree) → IsMethodSig s → IsMethodSig t → method_sig_text s ≡ method_sig_text t → s ≡ t }
    ensures read_back { (s : MethodSigTree) → IsMethodSig s → method_sig_of (method_sig_text s) ≡ Some s }
    ensures written_back { (bytes : List ℕ) (s : MethodSigTree) → method_sig_of bytes ≡ Some s → method_sig_text s ≡ bytes }
{}

/// A field signature is read from exactly the bytes that spell it, a text is that of one tree, and reading
/// and writing undo each other.
pub fn field_sig_laws()
    ensures reads { (bytes : List ℕ) (s : TypeTree) → (field_sig_of bytes ≡ Some s) ↔ SpellsFieldSig bytes s }
    ensures one { (s t : TypeTree) → IsFieldSig s → IsFieldSig t → type_text s ≡ type_text t → s ≡ t }
    ensures read_back { (s : TypeTree) → IsFieldSig s → field_sig_of (type_text s) ≡ Some s }
    ensures written_back { (bytes : List ℕ) (s : TypeTree) → field_sig_of bytes ≡ Some s → type_text s ≡ bytes }
{}

/// Parts of signatures are the same where their texts are: type parameters, class types, types one after
/// the other, and results.
pub fn part_laws()
    ensures parameters { (ps qs : List ParameterTree) → AllByRecursion IsParameter ps → AllByRecursion IsParameter qs → type_parameters_text ps ≡ type_parameters_text qs → ps ≡ qs }
    ensures classes { (c d : ClassTree) → IsTopClass c → IsTopClass d → class_text c ≡ class_text d → c ≡ d }
    ensures arguments { (ts us : List TypeTree) → AllByRecursion IsTop ts → AllByRecursion IsTop us → types_text ts ≡ types_text us → ts ≡ us }
    ensures results { (o p : Option TypeTree) → IfSome o IsTop → IfSome p IsTop → result_text o ≡ result_text p → o ≡ p }
{}

/// The grammar needs no rule for what follows the first `:` of a type parameter, as each of its texts
/// meets this one: a bound stands there where the text begins with `[`, or with `L` or `T` and a `;`
/// comes before the next `:`; where the name of the next parameter and its `:` stand, none does.
pub fn bound_laws()
    ensures bounds { (t : TypeTree) (rest : List ℕ) → IsBound t → is_bound_by_rule (type_text t ++ rest) ≡ true }
    ensures names { (name rest : List ℕ) → is_identifier name ≡ true → is_bound_by_rule (name ++ 58 ∷ rest) ≡ false }
{}
