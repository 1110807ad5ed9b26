// What a step gives, beside how the printing of it went. A failed write cuts no step short: each makes all its calls, so
// that its contract holds whatever becomes of the output.
ghost use Rattle.std.specs.Prelude.{◌≡◌, IfOk, is_ok};

use std::io;

#[derive(Clone, Copy)]
pub struct Printed<T> {
    pub value: T,
    pub said: io::Result<()>,
}

impl<T: Drop> Printed<T> {
    // The same, printed behind something else.
    pub fn after(self, said: io::Result<()>) -> Printed<T>
        ensures { result.value ≡ self.value }
    {
        Printed {
            value: self.value,
            said: said.and(self.said),
        }
    }

    // The value, or the error of the first write that failed.
    pub fn done(self) -> io::Result<T>
        ensures value { IfOk result (λ x. x ≡ self.value) }
        ensures variant { is_ok result ≡ is_ok self.said }
    {
        self.said?;
        Ok(self.value)
    }
}
