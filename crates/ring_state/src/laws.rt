//! Worked examples of the definitions, each the contract of a function that does nothing at run time.
ghost use Rattle.ring_state.specs.Examples.{ReadAddressExample, StoreExample, SwapExample};

/// The address that a read asks for, and the worlds after three steps.
pub fn examples()
    ensures read { ReadAddressExample }
    ensures store { StoreExample }
    ensures swap { SwapExample }
{}
