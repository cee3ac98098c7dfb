// Hands text to standard output or standard error, and answers the text if all of it was taken (rules 11.1 and 11.2).
ghost use Rattle.std.specs.Prelude.{option_copied};
ghost use Rattle.output.specs.HandedOver.{HandedOver};

// Prints a text (rules 11.1 and 11.2). If not all of it is taken, that is said on standard error.
pub fn print<'a>(rt: &HostRuntime, program: &[u8], text: &'a [u8]) -> Option<&'a [u8]>
    ensures { HandedOver (option_copied result) text.now }
{
    let printed = hand_over(&rt.stdout(), text);
    if printed.is_none() {
        complain(
            rt,
            program,
            b"cannot write to standard output: see that there is room, and run this again",
        );
    }
    printed
}

// Says on standard error, behind the program's name, what is wrong and what to do next. If that is not taken either, no more is done.
pub fn complain<'a>(rt: &HostRuntime, program: &[u8], words: &'a [u8]) -> Option<&'a [u8]>
    ensures { HandedOver (option_copied result) words.now }
{
    let errors = rt.stderr();
    hand_over(&errors, program);
    hand_over(&errors, b": ");
    let said = hand_over(&errors, words);
    hand_over(&errors, b"\n");
    said
}

// Hands a text over part by part, until all of it is taken, or nothing more is.
fn hand_over<'a, P: Print>(stream: &P, text: &'a [u8]) -> Option<&'a [u8]>
    ensures { HandedOver (option_copied result) text.now }
{
    let mut taken = 0;
    while taken < text.len() {
        let more = stream.write_some(&text[taken..]).ok()?;
        if more == 0 {
            return None;
        }
        taken += more;
    }
    Some(&text[..taken])
}
