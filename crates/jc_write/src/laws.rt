//! Laws of class files that are written.
ghost use Rattle.std.specs.Prelude.{◌≡◌, Ok, IsTrue};
ghost use Rattle.jc_facts.specs.declared.blueprint.Blueprint.{Blueprint};
ghost use Rattle.jc_facts.specs.file.ClassGrammar.{Reads};
ghost use Rattle.jc_facts.specs.file.ClassSteps.{class_of};
ghost use Rattle.jc_facts.specs.code.ClientItems.{items as items_in};
ghost use Rattle.jc_facts.specs.written.TypedItems.{typed_items, IsWritable, AreMost};
ghost use Rattle.jc_facts.specs.written.Written.{written, IsFormed, HasShortFlags, fits_whole};

/// What is written of a blueprint that is formed and passes no limit is a class file whose record is
/// the blueprint's (`grammar`), and the steps of reading meet no fault in it (`steps`). Where its
/// bodies type too, its items are those that they type to (`items`), and what is written as max_stack
/// is the largest number of places during typing (`places`).
pub fn written_is_read_back()
    ensures grammar { (b : Blueprint) → IsFormed b → HasShortFlags b.facts → IsTrue (fits_whole b) → Reads (written b) b.facts }
    ensures steps { (b : Blueprint) → IsFormed b → HasShortFlags b.facts → IsTrue (fits_whole b) → class_of (written b) ≡ Ok b.facts }
    ensures items { (b : Blueprint) → IsWritable b → HasShortFlags b.facts → IsTrue (fits_whole b) → items_in (written b) ≡ Ok (typed_items b) }
    ensures places { (b : Blueprint) → IsWritable b → IsTrue (fits_whole b) → AreMost b.facts b.facts.methods b.bodies }
{}
