//! Laws of circuits' texts. Each function does nothing: its clause is the law.
ghost use Rattle.circuit_text.specs.Laws.{HasOneCircuit, ReadIsWritten, TextIsRead, WrittenIsRead};
ghost use Rattle.circuit_text.specs.Rows.{AigerRows};

/// A text of a circuit is read as this circuit.
pub fn written_is_read()
    ensures { WrittenIsRead }
{}

/// A text that is read as a circuit is a text of this circuit.
pub fn read_is_written()
    ensures { ReadIsWritten }
{}

/// A text is of one circuit at most.
pub fn has_one_circuit()
    ensures { HasOneCircuit }
{}

/// The text that a writer makes of a circuit is read as this circuit.
pub fn text_is_read()
    ensures { TextIsRead }
{}

/// What some texts say.
pub fn aiger_rows()
    ensures { AigerRows }
{}
