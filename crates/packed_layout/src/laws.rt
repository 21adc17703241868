// What holds of the packed form, whatever is read or written.
ghost use Rattle.packed_layout.specs.Exact.{PackingIsExact};

// What is packed is read back, what is read was packed, and what is refused is refused for its bytes.
pub fn law_of_packing()
    ensures { PackingIsExact }
{}
