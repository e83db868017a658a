//! What a rule may name.
ghost use Rattle.std.specs.Prelude.{◌≡◌, ℕ, Bool, List, Option};

/// The connectors that rules may name.
pub trait Connectors {
    ghost connector_named: { Self → List ℕ → Option ℕ };

    ghost has_interaction: { Self → ℕ → ℕ → Bool };

    /// The number of the connector with the name.
    fn find_connector(&self, name: &[u8]) -> Option<u16>
        ensures { result ≡ connector_named self.now name.now };

    /// Whether the mask is an interaction of the connector with the number.
    fn has_interaction(&self, connector: u16, mask: u16) -> bool
        ensures { result ≡ has_interaction self.now connector mask };
}
