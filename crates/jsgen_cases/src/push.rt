// Parts of answers.
use jsgen_syntax::Memory;
use std::alloc::Global;

/// Each of the texts.
pub fn push_each(answer: &mut String, texts: &[&str]) -> Result<(), Memory> {
    for text in texts {
        answer.push_str(text)?;
    }
    Ok(())
}

/// Each text whose flag is set.
pub fn push_where(answer: &mut String, texts: &[(bool, &str)]) -> Result<(), Memory> {
    for (holds, text) in texts {
        if *holds {
            answer.push_str(text)?;
        }
    }
    Ok(())
}

/// Numbers in hexadecimal digits, each behind a space.
pub fn push_numbers<T: Copy + Into<u32>>(
    alloc: Global,
    numbers: &[T],
    answer: &mut String,
) -> Result<(), Memory> {
    for number in numbers {
        let number: u32 = (*number).into();
        let digits = format!(in alloc; " {number:x}")?;
        answer.push_str(&digits)?;
    }
    Ok(())
}
