use mm_terms::Text;

/// Why objects are not linked.
#[derive(Debug, Drop)]
pub enum LinkFault {
    /// A symbol is defined twice: the symbol, and the names of the units of both definitions.
    Double(Text, Text, Text),
    /// A reference names nothing: the name of its unit, and its symbol.
    Undefined(Text, Text),
    /// No definition of the main symbol is open to every unit.
    NoMain,
    NoMemory,
}
