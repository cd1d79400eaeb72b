// The inputs of a sheet.
ghost use Rattle.std.specs.Prelude.{◌≡◌, slice_set};
ghost use Rattle.table.specs.Anew.{Stays};

use crate::sizes::INPUTS;
use crate::table::Table;
use program::value::InputContent;

impl Table {
    /// Sets an input; behind the last there is none.
    // Tried `get_mut`: the proof does not know the array afterwards.
    pub fn post(&mut self, input: u16, content: InputContent)
        ensures posted { self.new.inputs ≡ slice_set self.old.inputs input content }
        ensures noted { self.new.noted ≡ self.old.noted }
        ensures stays { Stays self.old self.new }
    {
        if (input as usize) < INPUTS {
            self.inputs[input as usize] = content;
        }
    }

    /// Notes what the inputs hold.
    pub fn note_inputs(&mut self)
        ensures noted { self.new.noted ≡ self.old.inputs }
        ensures inputs { self.new.inputs ≡ self.old.inputs }
        ensures stays { Stays self.old self.new }
    {
        self.noted.copy_from_slice(&self.inputs);
    }

    /// Puts the inputs back as they were noted.
    pub fn put_inputs_back(&mut self)
        ensures inputs { self.new.inputs ≡ self.old.noted }
        ensures noted { self.new.noted ≡ self.old.noted }
        ensures stays { Stays self.old self.new }
    {
        self.inputs.copy_from_slice(&self.noted);
    }
}
