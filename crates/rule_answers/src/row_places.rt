// A row's tokens found again: where a winner's words stand.

ghost use Rattle.rule_answers.specs.RowPlaces.{PlacesRead, PlacesReady};

use rows::bytes::two_bytes;
use rows::head::{AT_KIND, HEAD_LENGTH};

// The kinds and byte offsets of a file's tokens, in front of the arrays; how many there are. The file has a row: nothing is tested again.
pub fn read_places(file: &[u8], kinds: &mut [u8], places: &mut [u32]) -> usize
    requires { PlacesReady file.now kinds.old places.old }
    ensures { PlacesRead file.now result kinds.new places.new }
{
    let mut at = HEAD_LENGTH;
    let mut count: usize = 0;
    while at < file.len() {
        let kind = two_bytes(file, at + AT_KIND);
        let length = two_bytes(file, at);
        kinds[count] = kind as u8;
        places[count] = at as u32;
        count += 1;
        at += length;
    }
    count
}
