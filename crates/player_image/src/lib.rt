// The commands of a script that change the image. specs/PlayerImage.antt defines each.
#![tactic(auto)]

ghost use Rattle.std.specs.Prelude.{◌≡◌};
ghost use Rattle.views.specs.Views.{is_chr};
ghost use Rattle.player_image.specs.PlayerImage.{made_of, made_image, poke_of, poked_image};

use image::{fill_image, image_length, poke_image};
use player::Player;
use refusals::number_of;
use views::Table;

// Fills the image with the layout's length of bytes.
#[tactic(auto, unfolding(crate::specs::PlayerImage::made_of, crate::specs::PlayerImage::made_image))]
pub fn make_image(mut player: Player, out: &mut [u8], image: &mut [u8]) -> Player
    ensures { ((result, out.new) ≡ made_of player out.old) × (image.new ≡ made_image player image.old) }
{
    let length = image_length(player.board);
    fill_image(image, length);
    player.image = length;
    player.answer(out, b"image #\n", &[length as u64])
}

// A poke into the player's image, which is the front of the lent one; nothing where that is shorter.
#[tactic(auto, using(views::proofs::Calls::poke_of_flag), unfolding(crate::specs::PlayerImage::poke_of, crate::specs::PlayerImage::poked_image))]
pub fn poke(
    player: Player,
    table: Table,
    addr: u16,
    value: u8,
    out: &mut [u8],
    image: &mut [u8],
) -> Player
    ensures { ((result, out.new) ≡ poke_of player image.old out.old) × (image.new ≡ poked_image player (is_chr table) addr value image.old) }
{
    let n = player.image;
    if n > image.len() {
        return player;
    }
    let outcome = poke_image(player.board, &mut image[..n], table, addr, value);
    let number = u64::from(number_of(&outcome));
    player.answer(out, b"poke #\n", &[number])
}
