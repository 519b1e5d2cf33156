//! Laws of descriptors and of their types, for every list of bytes.
ghost use Rattle.std.specs.Prelude.{◌≡◌, ◌≢◌, ◌↔◌, ℕ, List, Some, min, true, false};
ghost use Rattle.jc_desc.specs.Names.{spells_class_name};
ghost use Rattle.jc_desc.specs.Pool.{names_array};
ghost use Rattle.jc_desc.specs.Reading.{field_of, method_of, slots_of_method};
ghost use Rattle.jc_desc.specs.Types.{TypeOf, Method, IsType, IsMethod, type_text, method_text, SpellsType, SpellsMethod, slots_of};

/// A type is read from exactly the bytes that spell it, and so a descriptor has one type.
pub fn type_laws()
    ensures reads { (bytes : List ℕ) (t : TypeOf) → (field_of bytes ≡ Some t) ↔ SpellsType bytes t }
    ensures one { (s t : TypeOf) → IsType s → IsType t → type_text s ≡ type_text t → s ≡ t }
{}

/// A method's type is read from exactly the bytes that spell it, and so a descriptor has one type;
/// its slots are those of the type.
pub fn method_laws()
    ensures reads { (bytes : List ℕ) (m : Method) → (method_of bytes ≡ Some m) ↔ SpellsMethod bytes m }
    ensures one { (m n : Method) → IsMethod m → IsMethod n → method_text m ≡ method_text n → m ≡ n }
    ensures slots { (bytes : List ℕ) (m : Method) → SpellsMethod bytes m → slots_of_method bytes ≡ Some (min (slots_of m.params) 4294967295) }
{}

/// No descriptor is that of a field and of a method, and no class name is that of an array.
pub fn kinds_apart()
    ensures descriptors { (t : TypeOf) (m : Method) → IsType t → IsMethod m → type_text t ≢ method_text m }
    ensures arrays { (name : List ℕ) → spells_class_name name ≡ true → names_array name ≡ false }
{}
