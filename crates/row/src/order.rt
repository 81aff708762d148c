// An order of the elements of a type.
ghost use Rattle.std.specs.Prelude.{◌≡◌};
ghost use Rattle.std.specs.declared.cmp.Ordering.TheVariants.{Less, Equal};
ghost use Rattle.std.specs.declared.cmp.Ordering.{Ordering};
ghost use Rattle.std.specs.Ordering.{ordering_reverse};

use std::cmp::Ordering;

pub trait Ordered: Copy {
    // What the order goes by. Values may be equal in the order and differ elsewhere.
    ghost Sort: { Type 0 };

    ghost key: { Self → Sort };

    // How two values stand to one another.
    ghost cmp: { Self → Self → Ordering };

    fn compare(&self, other: &Self) -> Ordering
        ensures { result ≡ cmp self.now other.now };

    ghost total: { (x y : Self) → cmp x y ≡ ordering_reverse (cmp y x) };

    ghost transitive: { (x y z : Self) → cmp x y ≡ Less → cmp y z ≡ Less → cmp x z ≡ Less };

    ghost agrees: { (x y : Self) → (cmp x y ≡ Equal → key x ≡ key y) × (key x ≡ key y → cmp x y ≡ Equal) };
}
