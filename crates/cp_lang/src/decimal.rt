ghost use Rattle.std.specs.Prelude.{◌≡◌};
ghost use Rattle.std.specs.List.{list_all};
ghost use Rattle.cp_path.specs.Text.{is_digit};
ghost use Rattle.cp_lang.specs.Decimal as form;

fn all_digits(word: &[u8]) -> bool
    ensures { result ≡ list_all is_digit word.now }
{
    word.iter().all(|x| x.is_ascii_digit())
}

fn is_decimal(word: &[u8]) -> bool
    ensures { result ≡ form.is_decimal word.now }
{
    if word.is_empty() {
        return false;
    }
    let front = word.len() == 1 || word[0] != b'0';
    let made_of = all_digits(word);
    front && made_of
}

/// The number below 2^64 that decimal digits without a leading zero spell.
pub(crate) fn decimal_value(word: &[u8]) -> Option<u64>
    ensures { result ≡ form.decimal_value word.now }
{
    if !is_decimal(word) {
        return None;
    }
    match std::str::from_utf8(word) {
        Ok(text) => text.parse::<u64>().ok(),
        Err(_) => None,
    }
}
