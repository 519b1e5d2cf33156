//! Laws of constant pools, for every list of bytes.
ghost use Rattle.std.specs.Prelude.{◌≡◌, ◌≢◌, ◌↔◌, ◌⊎◌, ℕ, List, Ok, Some, true};
ghost use Rattle.jc_desc.specs.Pool.{PoolOf, slot_of_index, names_class};
ghost use Rattle.jc_desc.specs.PoolAnswers.{MemberRefOf, HandleRefOf, utf8_in, class_in, member_ref_in, handle_in};
ghost use Rattle.jc_desc.specs.PoolGrammar.{IsPool};
ghost use Rattle.jc_desc.specs.PoolSteps.{pool_at};
ghost use Rattle.jc_desc.specs.Utf8.{is_modified_utf8};
ghost use Rattle.jc_pool.specs.Law.{ReadsOne, HasOneFault, Stands, IsSoundMember, IsSoundHandle};

/// Either exactly one pool is read and nothing is faulty, or none is read and exactly one pair of
/// offset and reason is faulty.
pub fn one_pool_or_one_fault()
    ensures { (bytes : List ℕ) → ReadsOne bytes ⊎ HasOneFault bytes }
{}

/// The steps of reading give exactly the pool that the bytes begin with.
pub fn steps_read_the_pool()
    ensures { (bytes : List ℕ) (pool : PoolOf) (rest : List ℕ) → (pool_at bytes ≡ Ok (pool, rest)) ↔ IsPool bytes pool rest }
{}

/// Each entry of a pool that is read stands in the file's bytes.
pub fn entries_stand_in_the_file()
    ensures { (bytes : List ℕ) (pool : PoolOf) (rest : List ℕ) (i : ℕ) → IsPool bytes pool rest → (slot_of_index pool.slots i).tag ≢ 0 → Stands bytes (slot_of_index pool.slots i) }
{}

/// What a pool that is read answers has the form that JVMS 4.4 asks for.
pub fn answers_are_sound()
    ensures texts { (bytes : List ℕ) (pool : PoolOf) (rest : List ℕ) (i : ℕ) (text : List ℕ) → IsPool bytes pool rest → utf8_in pool i ≡ Some text → is_modified_utf8 text ≡ true }
    ensures classes { (bytes : List ℕ) (pool : PoolOf) (rest : List ℕ) (i : ℕ) (name : List ℕ) → IsPool bytes pool rest → class_in pool i ≡ Some name → (is_modified_utf8 name ≡ true) × (names_class name ≡ true) }
    ensures members { (bytes : List ℕ) (pool : PoolOf) (rest : List ℕ) (i : ℕ) (m : MemberRefOf) → IsPool bytes pool rest → member_ref_in pool i ≡ Some m → IsSoundMember m }
    ensures handles { (bytes : List ℕ) (pool : PoolOf) (rest : List ℕ) (i : ℕ) (h : HandleRefOf) → IsPool bytes pool rest → handle_in pool i ≡ Some h → IsSoundHandle h }
{}
