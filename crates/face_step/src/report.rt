// What a call tells: its answer as a number, and a report of five numbers.
ghost use Rattle.std.specs.Prelude.{◌≡◌, length};
ghost use Rattle.face_step.specs.Targets.{told, told_numbers};
ghost use Rattle.face.specs.Face.{answer_number};

use crate::range::Range;
use inspect_report::examine;
use model::answer::Answer;

// The number that stands for an answer.
pub fn number(a: Answer) -> u32
    ensures { result ≡ answer_number a }
{
    match a {
        Answer::Refused(n) => n,
        Answer::Nothing => 256,
        Answer::Done | Answer::Repaired(_) => 0,
    }
}

fn told_numbers(a: Answer, x: Range) -> [u32; 5]
    ensures { result ≡ told_numbers a x }
{
    match a {
        Answer::Refused(_) | Answer::Nothing => [0; 5],
        Answer::Done => [0, 0, 0, x.at, x.size],
        Answer::Repaired(r) => {
            [
                examine::class_number(r.class),
                examine::start_number(r.start),
                r.count,
                0,
                0,
            ]
        }
    }
}

// What an answer tells; a refusal leaves the report as it was.
pub fn tell(a: Answer, x: Range, report: &mut [u32])
    requires { length report.old ≡ 5 }
    ensures { report.new ≡ told a x report.old }
{
    if matches!(a, Answer::Refused(_)) {
        return;
    }
    report.copy_from_slice(&told_numbers(a, x));
}
