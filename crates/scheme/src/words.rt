// How a refusal is printed: one line with its layer, number and place.
ghost use Rattle.std.specs.Prelude.{◌≡◌, IfOk, Some, string_bytes};
ghost use Rattle.scheme.specs.Words.{layer_word, refusal_line};

use crate::faults::{Layer, Refusal};
use std::alloc::{AllocError, Global};
use std::fmt;

impl Layer {
    pub fn word(self) -> &'static str
        ensures { result.now ≡ layer_word self }
    {
        match self {
            Layer::File => "file",
            Layer::Book => "book",
            Layer::Call => "call",
            Layer::Pick => "pick",
        }
    }
}

impl fmt::Display for Layer {
    ghost output = { λ layer. Some (layer_word layer) };

    fn fmt<W: fmt::Write>(&self, f: &mut fmt::Formatter<W>) -> fmt::Result {
        f.write_str(self.word())
    }
}

impl fmt::Display for Refusal {
    ghost output = { λ refusal. Some (refusal_line refusal) };

    fn fmt<W: fmt::Write>(&self, f: &mut fmt::Formatter<W>) -> fmt::Result {
        let layer = self.layer;
        let number = self.number;
        let place = self.place;
        write!(f, "refused {layer} {number} {place}")
    }
}

impl Refusal {
    pub fn line(self, heap: Global) -> Result<String, AllocError>
        ensures { IfOk result (λ s. string_bytes s ≡ refusal_line self) }
    {
        self.to_string(heap)
    }
}
