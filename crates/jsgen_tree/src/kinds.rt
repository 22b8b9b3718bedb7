// Which properties are methods.
ghost use Rattle.std.specs.Prelude.{◌≡◌};
ghost use Rattle.jsgen_tree.specs.Inside.{is_method};

use crate::collections::{ObjectProperty, PropertyKind};

impl<N> ObjectProperty<N> {
    /// Whether it is a method or an accessor, whose function follows its key (ECMA-262, 15.4).
    pub fn is_method(&self) -> bool
        ensures { result ≡ is_method self.now.kind self.now.method }
    {
        match self.kind {
            PropertyKind::Init => self.method,
            _ => true,
        }
    }
}
