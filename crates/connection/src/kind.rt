// What kind of cell a slot sends (document 01, "Slots"), with its number in a trace (document 02, L11).
ghost use Rattle.std.specs.Prelude.{◌≡◌};
ghost use Rattle.connection.specs.Kind.{kind_number};

#[derive(Clone, Copy)]
pub enum Kind {
    Forward = 1,
    Turned = 2,
    Data = 3,
}

impl Kind {
    pub fn number(self) -> u32
        ensures { result ≡ kind_number self }
    {
        self as u32
    }
}
