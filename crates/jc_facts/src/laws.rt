//! The generated releases of eight classes, worked out.
ghost use Rattle.std.specs.Prelude.{◌≡◌, ◌∷◌, [], Some, codes, map, slice_get};
ghost use Rattle.jc_facts.specs.Generated.{member, plain_class, made};

/// Of eight classes both releases declare the names `g/C0000` to `g/C0007`; and what those of
/// number 3, 5, 6 and 7 are in the old release and in the new one, which changes them.
#[tactic(auto, unfolding(crate::specs::Generated::made, crate::specs::Generated::old_class, crate::specs::Generated::new_class, crate::specs::Generated::numbered_class, crate::specs::Generated::four_digits))]
pub fn eight_classes()
    ensures old_names { map (λ c. c.name) (made 8).old ≡ codes "g/C0000" ∷ codes "g/C0001" ∷ codes "g/C0002" ∷ codes "g/C0003" ∷ codes "g/C0004" ∷ codes "g/C0005" ∷ codes "g/C0006" ∷ codes "g/C0007" ∷ [] }
    ensures new_names { map (λ c. c.name) (made 8).new ≡ codes "g/C0000" ∷ codes "g/C0001" ∷ codes "g/C0002" ∷ codes "g/C0003" ∷ codes "g/C0004" ∷ codes "g/C0005" ∷ codes "g/C0006" ∷ codes "g/C0007" ∷ [] }
    ensures old_3 { slice_get (made 8).old 3 ≡ Some (plain_class (codes "g/C0003") (Some (codes "g/C0001")) (member (codes "f0003") (codes "I") 0x0009 ∷ []) (member (codes "<init>") (codes "()V") 0x0001 ∷ member (codes "m0003") (codes "()V") 0x0001 ∷ [])) }
    ensures new_3 { slice_get (made 8).new 3 ≡ Some (plain_class (codes "g/C0003") (Some (codes "g/C0001")) (member (codes "f0003") (codes "I") 0x0009 ∷ []) (member (codes "<init>") (codes "()V") 0x0001 ∷ [])) }
    ensures new_5 { slice_get (made 8).new 5 ≡ Some (plain_class (codes "g/C0005") (Some (codes "g/C0002")) (member (codes "f0005") (codes "I") 0x0009 ∷ []) (member (codes "<init>") (codes "()V") 0x0001 ∷ member (codes "m0005") (codes "()V") 0x0001 ∷ member (codes "p0005") (codes "()V") 0x0002 ∷ [])) }
    ensures new_6 { slice_get (made 8).new 6 ≡ Some (plain_class (codes "g/C0006") (Some (codes "g/C0002")) (member (codes "f0006") (codes "I") 0x0019 ∷ []) (member (codes "<init>") (codes "()V") 0x0001 ∷ member (codes "m0006") (codes "()V") 0x0001 ∷ [])) }
    ensures new_7 { slice_get (made 8).new 7 ≡ Some (plain_class (codes "g/C0007") (Some (codes "g/C0003")) (member (codes "f0007") (codes "I") 0x0009 ∷ []) (member (codes "<init>") (codes "()V") 0x0001 ∷ member (codes "m0007") (codes "()V") 0x0011 ∷ [])) }
{}
