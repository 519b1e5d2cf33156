//! Worked rows of which line explains a loss.
ghost use Rattle.std.specs.Prelude.{◌≡◌, [], ◌∷◌, None, Some, codes};
ghost use Rattle.jc_facts.specs.declared.client.Item.TheVariants as items;
ghost use Rattle.jc_facts.specs.declared.link_error.LinkError.TheVariants as errors;
ghost use Rattle.jc_used.specs.Explains.{explained_by};
ghost use Rattle.jc_used.specs.Worked.{dot, square_gone, circle_closed, draw_gone, load_lost, item_lost, call_of};

/// A line explains what names its class or its member, from a client or through one below it, with its
/// error, and nothing else; of several the first is named.
pub fn lines_explain_their_own()
    ensures class_gone { explained_by (dot ∷ []) (square_gone ∷ []) (item_lost (items.Class (codes "p/Square")) errors.NoClassDefFoundError ∷ []) ≡ Some 1 ∷ [] }
    ensures of_an_array { explained_by (dot ∷ []) (square_gone ∷ []) (item_lost (items.Class (codes "[Lp/Square;")) errors.NoClassDefFoundError ∷ []) ≡ Some 1 ∷ [] }
    ensures other_class { explained_by (dot ∷ []) (square_gone ∷ []) (item_lost (items.Class (codes "p/Ring")) errors.NoClassDefFoundError ∷ []) ≡ None ∷ [] }
    ensures other_error { explained_by (dot ∷ []) (square_gone ∷ []) (item_lost (items.Class (codes "p/Square")) errors.IllegalAccessError ∷ []) ≡ None ∷ [] }
    ensures shut_out { explained_by (dot ∷ []) (circle_closed [] ∷ []) (load_lost errors.IncompatibleClassChangeError ∷ []) ≡ Some 1 ∷ [] }
    ensures let_in { explained_by (dot ∷ []) (circle_closed (codes "a/Dot" ∷ []) ∷ []) (load_lost errors.IncompatibleClassChangeError ∷ []) ≡ None ∷ [] }
    ensures method_gone { explained_by (dot ∷ []) (square_gone ∷ draw_gone (codes "p/Circle") ∷ []) (item_lost (call_of (codes "p/Circle")) errors.NoSuchMethodError ∷ []) ≡ Some 2 ∷ [] }
    ensures below_its_class { explained_by (dot ∷ []) (draw_gone (codes "p/Circle") ∷ []) (item_lost (call_of (codes "a/Dot")) errors.NoSuchMethodError ∷ []) ≡ Some 1 ∷ [] }
    ensures of_another_class { explained_by (dot ∷ []) (draw_gone (codes "p/Ring") ∷ []) (item_lost (call_of (codes "p/Circle")) errors.NoSuchMethodError ∷ []) ≡ None ∷ [] }
{}
