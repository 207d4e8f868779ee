//! Tables of rows.

use std::test::Fail;

/// Fails by the name of the first row that does not hold. What is said of a row is its name, and whether it holds.
pub fn all_hold<'a, R, F: Fn(&R) -> (&'a str, bool)>(rows: &[R], said: &F) -> Result<(), Fail>
    requires { F.IsAlwaysCallable said.now }
{
    for row in rows {
        let (name, holds) = said(row);
        if !holds {
            return Err(Fail::new(name));
        }
    }
    Ok(())
}
