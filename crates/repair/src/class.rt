// The class of a page's own image.
ghost use Rattle.std.specs.Prelude.{◌≡◌};
ghost use Rattle.model.specs.Repair.{class_of};

use model::answer::Class;

// The class of an image that is valid or not, with number n.
// Ruled out: Good for every valid image; Failed or Behind for an image above the newest durable number.
pub fn class(valid: bool, n: u32, durable: u32, written: u32) -> Class
    ensures { result ≡ class_of valid n durable written }
{
    if valid {
        if n == durable {
            return Class::Good;
        }
        if durable < n {
            return Class::Ahead;
        }
        if n < written {
            return Class::Stale;
        }
        return Class::Behind;
    }
    Class::Failed
}
